//! Why a line is no event, or no line of a journal.

ghost use Rattle.std.specs.Prelude.{◌≡◌};
ghost use Rattle.ynl_lines.specs.Writing.{fault_word, journal_fault_word, input_fault_word};

use thiserror::Error;

/// Why a line is no event, in the order of the tests: each is told only where none before it holds,
/// over all keys of the object.
#[derive(Clone, Copy, Debug, PartialEq, Eq, Error)]
pub enum LineFault {
    /// The input is too long, which shows in this line.
    #[error("the input is too long")]
    Size,
    /// The bytes are no JSON text.
    #[error("not a JSON text")]
    Syntax,
    /// It is no object, or `event` is not one of the known words.
    #[error("not an event")]
    Event,
    /// A key is missing or unknown, or its value is of another kind.
    #[error("not the keys of the event")]
    Field,
    /// A text is no name, label, path or id.
    #[error("not a name")]
    Name,
    /// A number is out of its range.
    #[error("a number out of range")]
    Range,
}

impl LineFault {
    /// The word that is printed.
    pub fn word(self) -> &'static str
        ensures { result.now ≡ fault_word self }
    {
        match self {
            LineFault::Size => "size",
            LineFault::Syntax => "syntax",
            LineFault::Event => "event",
            LineFault::Field => "field",
            LineFault::Name => "name",
            LineFault::Range => "range",
        }
    }
}

/// Why an audit ends before its journal does.
#[derive(Clone, Copy, Debug, PartialEq, Eq, Error)]
pub enum JournalFault {
    /// The input is too long, which shows in this line.
    #[error("the input is too long")]
    Size,
    /// The line is no line of a journal, or its place is not the number of the entries before it.
    #[error("not the next line of a journal")]
    Line,
    /// The line has a reply which is not the cluster's.
    #[error("not the cluster's reply")]
    Differs,
}

impl JournalFault {
    /// The word that is printed.
    pub fn word(self) -> &'static str
        ensures { result.now ≡ journal_fault_word self }
    {
        match self {
            JournalFault::Size => "size",
            JournalFault::Line => "line",
            JournalFault::Differs => "differs",
        }
    }
}

/// Why an input is not read to its end: a line of a script is no event, or one of a journal does not pass.
#[derive(Clone, Copy, Debug, PartialEq, Eq, Error)]
pub enum InputFault {
    #[error("{0}")]
    Script(LineFault),
    #[error("{0}")]
    Journal(JournalFault),
}

impl InputFault {
    /// The word that is printed.
    pub fn word(self) -> &'static str
        ensures { result.now ≡ input_fault_word self }
    {
        match self {
            InputFault::Script(fault) => fault.word(),
            InputFault::Journal(fault) => fault.word(),
        }
    }
}

/// The text is no line of a journal.
#[derive(Clone, Copy, Debug, PartialEq, Eq, Error)]
#[error("not a line of a journal")]
pub struct BadLine;

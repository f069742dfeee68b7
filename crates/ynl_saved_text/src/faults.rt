//! Why a text is no saved state.

ghost use Rattle.std.specs.Prelude.{◌≡◌};
ghost use Rattle.ynl_saved_text.specs.StateLines.{fault_word};

use thiserror::Error;

/// Why a text is no saved state, in the order of the tests. Of one line alone only those from `Syntax` to `Range` are
/// found; each is returned only where none before it holds, over all keys of the object.
#[derive(Clone, Copy, Debug, PartialEq, Eq, Error)]
pub enum StateFault {
    /// The text is too long.
    #[error("the state is too long")]
    Size,
    /// The bytes are no JSON text.
    #[error("not a JSON text")]
    Syntax,
    /// It is no object, `state` is not one of the known words, or the line is out of order.
    #[error("not a line of a state, or out of order")]
    Kind,
    /// A key is missing or unknown, or its value is of another kind.
    #[error("not the keys of the line")]
    Field,
    /// A text is no name, label, path or id.
    #[error("not a name")]
    Name,
    /// A number is out of its range.
    #[error("a number out of range")]
    Range,
    /// What the line tells does not go with the lines before it.
    #[error("not sound")]
    Unsound,
    /// The text has no last line.
    #[error("cut off")]
    Cut,
}

impl StateFault {
    /// The word that is printed.
    pub fn word(self) -> &'static str
        ensures { result.now ≡ fault_word self }
    {
        match self {
            StateFault::Size => "size",
            StateFault::Syntax => "syntax",
            StateFault::Kind => "kind",
            StateFault::Field => "field",
            StateFault::Name => "name",
            StateFault::Range => "range",
            StateFault::Unsound => "unsound",
            StateFault::Cut => "cut",
        }
    }
}

/// Why a text is no saved state, and where.
#[derive(Clone, Copy, Debug, PartialEq, Eq)]
pub struct BadState {
    pub fault: StateFault,
    /// The line with the fault, counted from 1; 0 where the fault is `Size` or `Cut`, which are of no line.
    pub line: u64,
}

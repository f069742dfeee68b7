//! The text that the lines of a state come to.

ghost use Rattle.std.specs.Prelude.{◌≡◌, ◌++◌, ◌+◌, ◌<◌, ◌≤◌, [], OnErr, OnOk, length, vec_capacity, vec_len};
ghost use Rattle.ynl_saved_text.specs.StateLines.{IsClocked};
ghost use Rattle.ynl_saved_text.specs.Texts.{Reads, line_text};

use std::alloc::{AllocError, Global};
use std::marker::Model;
use ynl_saved::{LineSink, StateLine};
use ynl_saved_text::put_state_line;

/// How long the text may get, in bytes.
pub(crate) const MOST: usize = 268_435_456;

/// Why no line more is added.
#[derive(Clone, Copy)]
pub(crate) enum TextFault {
    /// The text would be too long.
    Size,
    /// Memory was refused, or the lines cannot be counted.
    NoMemory,
}

impl From<AllocError> for TextFault {
    ghost use Rattle.std.specs.Prelude.{◌≡◌};
    ghost use Rattle.ynl_states.specs.declared.text.TextFault.TheVariants.{NoMemory};

    ghost from_gives = { λ _ e. e ≡ NoMemory };

    fn from(_error: AllocError) -> TextFault {
        TextFault::NoMemory
    }
}

/// Adds the text of a line, with its newline. Memory is asked for only where `text` has no room for it; where it is refused
/// `text` may hold a front of it.
pub fn add_line(text: &mut Vec<u8>, line: &StateLine) -> Result<(), AllocError>
    ensures added { OnOk result (text.new.items ≡ text.old.items ++ line_text line.now) }
    ensures len { OnOk result (vec_len text.new ≡ vec_len text.old + length (line_text line.now)) }
    ensures capacity { vec_capacity text.old ≤ vec_capacity text.new }
    ensures full { OnErr result (vec_capacity text.old < vec_len text.old + length (line_text line.now)) }
    ensures reads { OnOk result (IsClocked line.now → Reads line.now) }
{
    put_state_line(text, line)?;
    text.push(b'\n')?;
    Ok(())
}

/// The text of some lines, each with its newline, and how many they are.
#[derive(Drop)]
pub(crate) struct StateText {
    text: Vec<u8>,
    lines: u64,
}

impl Model for StateText {
    ghost use Rattle.ynl_states.specs.Text.{Told, told_of};

    ghost Value = { Told };

    ghost view = { told_of };
}

impl StateText {
    /// No line yet.
    pub(crate) fn new(alloc: Global) -> StateText
        ensures text { result.text ≡ [] }
        ensures lines { result.lines ≡ 0 }
    {
        StateText {
            text: Vec::new(alloc),
            lines: 0,
        }
    }

    /// How many lines there are.
    pub(crate) fn lines(&self) -> u64
        ensures { result ≡ self.now.lines }
    {
        self.lines
    }

    /// The text.
    pub(crate) fn into_text(self) -> Vec<u8>
        ensures { result.items ≡ self.text }
    {
        self.text
    }
}

impl LineSink for StateText {
    type Fault = TextFault;

    ghost use Rattle.ynl_states.specs.Text.{Adds};

    ghost gives = { Adds };

    fn take(&mut self, line: &StateLine) -> Result<(), TextFault> {
        if self.lines == u64::MAX {
            return Err(TextFault::NoMemory);
        }
        add_line(&mut self.text, line)?;
        if self.text.len() > MOST {
            return Err(TextFault::Size);
        }
        self.lines += 1;
        Ok(())
    }
}

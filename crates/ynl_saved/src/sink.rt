//! What the lines of a state are handed to.

ghost use Rattle.std.specs.Prelude.{Result};
ghost use Rattle.ynl_saved.specs.declared.lines.StateLine.{StateLine};

use crate::lines::StateLine;

/// What the lines of a state are handed to, one after another: it counts them, say, or writes their texts.
pub trait LineSink {
    /// Why it takes no more.
    type Fault: Drop;

    // What comes of a line that is handed to it: what it is then, and whether it took the line.
    ghost gives: { Self → StateLine → Self → Result (Unit {0}) Self.Fault → Type 0 };

    /// A line is handed to it.
    fn take(&mut self, line: &StateLine) -> Result<(), Self::Fault>
        ensures { gives self.old line.now self.new result };
}

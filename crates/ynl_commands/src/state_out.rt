//! The text of a state, of which a part is held back until there is much to write.

ghost use Rattle.std.specs.Prelude.{◌≡◌, ◌≢◌, ◌+◌, ◌≤◌, [], vec_capacity, IfErr};
ghost use Rattle.ynl_commands.specs.declared.run.ToolFault.TheVariants.{Read};
ghost use Rattle.ynl_commands.specs.Running.{held_limit};
ghost use Rattle.ynl_commands.specs.Sending.{WritesState};
ghost use Rattle.ynl_states.specs.Measure.{IsMeasured};
ghost use Rattle.ynl_saved_text.specs.Texts.{state_text};

use crate::lines_out::{HELD, write_held, write_on};
use crate::run::ToolFault;
use std::alloc::Global;
use std::io::Write;
use ynl_saved::{LineSink, StateLine};
use ynl_snapshots::Saving;
use ynl_states::{StateSize, add_line, tell_state};

/// Lines of a state on their way to a writer.
#[derive(Drop)]
struct StateOut<'a, W> {
    writer: &'a mut W,
    held: Vec<u8>,
}

impl<W: Write> LineSink for StateOut<'_, W> {
    type Fault = ToolFault;

    ghost use Rattle.ynl_commands.specs.Sending.{SendsLine};

    ghost gives = { λ s line t r. (t.writer.ghost_name ≡ s.writer.ghost_name)
        × SendsLine (W.contents s.writer.now) (W.contents t.writer.now) s.held t.held line r };

    fn take(&mut self, line: &StateLine) -> Result<(), ToolFault> {
        add_line(&mut self.held, line)?;
        write_on(self.writer, &mut self.held)?;
        Ok(())
    }
}

impl<'a, W: Write> StateOut<'a, W> {
    /// No line yet, and room for what is held back.
    fn new(writer: &'a mut W, held: Vec<u8>) -> StateOut<'a, W>
        ensures same_reference { result.writer.ghost_name ≡ writer.entry.ghost_name }
        ensures writer { result.writer.now ≡ writer.old }
        ensures held { result.held ≡ held }
    {
        StateOut { writer, held }
    }

    /// Writes all lines of a state. Where there is room for [`HELD`] bytes and the longest of them, none asks for memory.
    fn send(&mut self, saving: &Saving<'_>, size: StateSize) -> Result<(), ToolFault>
        requires measured { IsMeasured saving.now.config saving.now.state size }
        requires none { self.old.held.items ≡ [] }
        requires room { held_limit + size.longest ≤ vec_capacity self.old.held }
        ensures same_reference { self.new.writer.ghost_name ≡ self.old.writer.ghost_name }
        ensures text { WritesState (W.contents self.old.writer.now) (W.contents self.new.writer.now)
            (state_text saving.now.config saving.now.state) result }
        ensures fault { IfErr result (λ e. e ≢ Read) }
    {
        tell_state(saving, size.lines, self)?;
        write_held(self.writer, &mut self.held)?;
        Ok(())
    }
}

/// Writes the text of a state whose lines were measured. Room for [`HELD`] bytes and the longest line is reserved
/// before anything is written. After a write fault a front of the text is written, and where memory was refused nothing.
pub(crate) fn write_lines<W: Write>(
    alloc: Global,
    saving: &Saving<'_>,
    size: StateSize,
    writer: &mut W,
) -> Result<(), ToolFault>
    requires { IsMeasured saving.now.config saving.now.state size }
    ensures text { WritesState (W.contents writer.old) (W.contents writer.new)
        (state_text saving.now.config saving.now.state) result }
    ensures fault { IfErr result (λ e. e ≢ Read) }
{
    let held = Vec::with_capacity(alloc, HELD + size.longest)?;
    let mut out = StateOut::new(writer, held);
    let sent = out.send(saving, size);
    let StateOut {
        writer,
        held: _held,
    } = out;
    // No effect at run time. The proof reads what the writer holds from this use of it.
    let _ = &*writer;
    sent
}

//! Saving the state after a script.

ghost use Rattle.std.specs.Prelude.{◌≢◌, IfErr};
ghost use Rattle.ynl_commands.specs.declared.run.ToolFault.TheVariants.{Read};
ghost use Rattle.ynl_commands.specs.Clusters.{rest_of};
ghost use Rattle.ynl_commands.specs.Input.{between};
ghost use Rattle.ynl_commands.specs.Saving.{Saves, SavesScript, SavesState, SavesWhole};

use crate::clusters::{AppliedScript, apply_script};
use crate::run::{Summary, ToolFault, report};
use crate::state_out::write_lines;
use std::alloc::Global;
use std::io::{BufRead, Write};
use ynl_core::Core;
use ynl_lines::InputFault;
use ynl_saved_text::StateFault;
use ynl_states::measure_state;

/// Writes the state of a cluster, where its text is not too long. The state is told twice, line by line: to measure its
/// text, and to write it. All memory is taken before anything is written.
fn save_state<W: Write>(
    alloc: Global,
    core: &Core,
    writer: &mut W,
) -> Result<Result<(), StateFault>, ToolFault>
    ensures text { SavesState (W.contents writer.old) (W.contents writer.new) core.now.config core.now.state result }
    ensures fault { IfErr result (λ e. e ≢ Read) }
{
    let saving = core.saving();
    let size = match measure_state(alloc, &saving)? {
        Ok(size) => size,
        Err(fault) => return Ok(Err(fault)),
    };
    write_lines(alloc, &saving, size, writer)?;
    Ok(Ok(()))
}

/// Writes what there is of a script: the state that it left, or its fault.
fn save<W: Write>(
    alloc: Global,
    script: &AppliedScript,
    writer: &mut W,
) -> Result<Result<Summary, StateFault>, ToolFault>
    ensures text { Saves (W.contents writer.old) (W.contents writer.new) script.now.core.config script.now.core.state (rest_of script.now) result }
    ensures fault { IfErr result (λ e. e ≢ Read) }
{
    if let Some(fault) = script.fault {
        let summary = report(alloc, writer, InputFault::Script(fault), script.lines)?;
        return Ok(Ok(summary));
    }
    if let Err(fault) = save_state(alloc, &script.core, writer)? {
        return Ok(Err(fault));
    }
    Ok(Ok(Summary {
        lines: script.lines,
        fault: None,
    }))
}

/// Reads the script, and applies each event as it is read, from the state that the cluster is in. Only then it writes
/// the state after them: the text that `write_state` of `ynl_states` gives. Of a script with a fault nothing is told but
/// that fault, in one line. Where the state's text would be too long nothing is written, and the fault is `Size`. Of
/// the text at most some 65,536 bytes and twice the longest line are held, and of the script one line.
///
/// After a read fault nothing is written, nor where memory was refused; after a write fault a front of
/// the text.
pub fn save_lines<R: BufRead, W: Write>(
    alloc: Global,
    core: Core,
    reader: &mut R,
    writer: &mut W,
) -> Result<Result<Summary, StateFault>, ToolFault>
    ensures whole { SavesWhole (between (R.remaining reader.old) (R.remaining reader.new)) (between (W.contents writer.old) (W.contents writer.new)) core.config core.state result }
    ensures steps { SavesScript (between (R.remaining reader.old) (R.remaining reader.new)) (between (W.contents writer.old) (W.contents writer.new)) core.config core.state result }
{
    let script = apply_script(alloc, core, reader)?;
    save(alloc, &script, writer)
}

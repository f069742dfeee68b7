//! Clusters that the events of a script are applied to: each as its line is read, and none is held.

ghost use Rattle.ynl_commands.specs.Clusters.{Applies, AppliesScript};
ghost use Rattle.ynl_commands.specs.Input.{between};

use crate::lines_in::{Lines, Next, ReadFault};
use std::alloc::Global;
use std::io::BufRead;
use ynl_core::{Core, NoMemory};
use ynl_fields::is_blank;
use ynl_lines::{EventReader, LineFault};

/// What a script left: the cluster after its events, how many lines were read for them, and the fault
/// that ended it, if one did.
#[derive(Drop)]
pub struct AppliedScript {
    pub core: Core,
    pub lines: u64,
    pub fault: Option<LineFault>,
}

/// Applies what a line says to the cluster, or gives the line's fault.
fn apply_line(
    alloc: Global,
    events: &mut EventReader,
    core: &mut Core,
    line: &[u8],
) -> Result<Option<LineFault>, NoMemory>
    ensures { Applies core.old core.new line.now result }
{
    if is_blank(line) {
        return Ok(None);
    }
    if let Err(fault) = events.read(alloc, line)? {
        return Ok(Some(fault));
    }
    core.answer(events.event())?;
    Ok(None)
}

/// Reads the script as `read_script` does, to the end of the input or to the first line with a fault,
/// and applies each event to the cluster before it reads on.
pub fn apply_script<R: BufRead>(
    alloc: Global,
    mut core: Core,
    reader: &mut R,
) -> Result<AppliedScript, ReadFault>
    ensures { AppliesScript (between (R.remaining reader.old) (R.remaining reader.new)) core result }
{
    let mut events = EventReader::new(alloc);
    let mut input = Lines::new(alloc);
    'lines: loop {
        match input.next(reader)? {
            Next::TooLong => {
                return Ok(AppliedScript {
                    core,
                    lines: input.count,
                    fault: Some(LineFault::Size),
                });
            }
            Next::End => {
                return Ok(AppliedScript {
                    core,
                    lines: input.count,
                    fault: None,
                });
            }
            Next::Line => {}
        }
        if let Some(fault) = apply_line(alloc, &mut events, &mut core, &input.line)? {
            return Ok(AppliedScript {
                core,
                lines: input.count,
                fault: Some(fault),
            });
        }
    }
}

//! Scripts: the events of an input, read to its end before anything is done with them.

ghost use Rattle.std.specs.Prelude.{◌≡◌};
ghost use Rattle.ynl_commands.specs.Input.{between};
ghost use Rattle.ynl_commands.specs.Readings.{come_to};
ghost use Rattle.ynl_commands.specs.Script.{script_read, Adds, ReadsScript, ReadsWhole};

use crate::lines_in::{Lines, Next, ReadFault};
use std::alloc::{AllocError, Global};
use std::io::BufRead;
use ynl_fields::is_blank;
use ynl_lines::{EventReader, LineFault};
use ynl_packed::Events;

/// The events of an input, to its end or to the first line with a fault: how many lines were read for
/// them, and that fault, if there is one.
#[derive(Drop)]
pub struct Script {
    pub events: Events,
    pub lines: u64,
    pub fault: Option<LineFault>,
}

/// Adds what a line says to the events, or gives the line's fault.
fn add_line(
    alloc: Global,
    lines: &mut EventReader,
    events: &mut Events,
    line: &[u8],
) -> Result<Option<LineFault>, AllocError>
    ensures { Adds events.old events.new line.now result }
{
    if is_blank(line) {
        return Ok(None);
    }
    match lines.read(alloc, line) {
        Ok(Ok(())) => {
            events.push(lines.event())?;
            Ok(None)
        }
        Ok(Err(fault)) => Ok(Some(fault)),
        Err(e) => Err(e),
    }
}

/// The script that ends here.
fn end_script(events: Events, lines: u64, fault: Option<LineFault>) -> Script
    ensures { script_read result ≡ come_to events lines fault }
{
    Script {
        events,
        lines,
        fault,
    }
}

/// Reads the script to the end of the input, or to the first line with a fault. An input of more than
/// 67,108,864 bytes has a fault in the line where it gets too long.
pub fn read_script<R: BufRead>(alloc: Global, reader: &mut R) -> Result<Script, ReadFault>
    ensures whole { ReadsWhole (between (R.remaining reader.old) (R.remaining reader.new)) result }
    ensures steps { ReadsScript (between (R.remaining reader.old) (R.remaining reader.new)) result }
{
    let mut events = Events::new(alloc);
    let mut lines = EventReader::new(alloc);
    let mut input = Lines::new(alloc);
    'lines: loop {
        match input.next(reader)? {
            Next::TooLong => return Ok(end_script(events, input.count, Some(LineFault::Size))),
            Next::End => return Ok(end_script(events, input.count, None)),
            Next::Line => {}
        }
        if let Some(fault) = add_line(alloc, &mut lines, &mut events, &input.line)? {
            return Ok(end_script(events, input.count, Some(fault)));
        }
    }
}

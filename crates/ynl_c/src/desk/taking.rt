//! What a cluster makes of a line.

ghost use Rattle.std.specs.Prelude.{◌≡◌, List, IfOk, OnErr, OnOk};
ghost use Rattle.ynl_model.specs.declared.containers.Placed.{Placed};
ghost use Rattle.ynl_lines.specs.Reading.{event_of_line};
ghost use Rattle.ynl_model.specs.declared.events.Event.TheVariants.{Heartbeat};
ghost use Rattle.ynl_c.specs.desk.Standing.{outcome_text};
ghost use Rattle.ynl_c.specs.desk.Calls.{Takes, Reads};

use crate::desk::outcome::Outcome;
use std::alloc::Global;
use ynl_core::{Core, NoMemory};
use ynl_lines::{EventReader, LineFault, heartbeat_of};
use ynl_model::Placed;
use ynl_resource::Name;

/// Takes a heartbeat. It stands alone, since a function clears the room of each event and reply that it holds, and most
/// lines are heartbeats; what is placed comes into a list that is kept.
fn beat(
    core: &mut Core,
    node: Name,
    placed: &mut Vec<Placed>,
    outcome: &mut Outcome,
) -> Result<(), NoMemory>
    ensures ok { OnOk result (Takes core.old core.new (outcome_text outcome.new placed.new.items) (Heartbeat node)) }
    ensures err { OnErr result (core.new ≡ core.old) }
{
    let refused = core.beat(&node, placed)?;
    *outcome = Outcome::Beat(refused);
    Ok(())
}

/// Takes the event of any other line.
fn take_event(
    alloc: Global,
    core: &mut Core,
    events: &mut EventReader,
    line: &[u8],
    outcome: &mut Outcome,
) -> Result<Option<LineFault>, NoMemory>
    ensures ok { IfOk result (λ fault. (placed : List Placed) → Reads core.old core.new (outcome_text outcome.new placed) (event_of_line line.now) fault) }
    ensures err { OnErr result (core.new ≡ core.old) }
{
    if let Err(fault) = events.read(alloc, line)? {
        return Ok(Some(fault));
    }
    *outcome = Outcome::Reply(core.answer(events.event())?);
    Ok(None)
}

/// Takes the event that a line is, or returns the line's fault.
pub fn take(
    alloc: Global,
    core: &mut Core,
    events: &mut EventReader,
    line: &[u8],
    placed: &mut Vec<Placed>,
    outcome: &mut Outcome,
) -> Result<Option<LineFault>, NoMemory>
    ensures ok { IfOk result (λ fault. Reads core.old core.new (outcome_text outcome.new placed.new.items) (event_of_line line.now) fault) }
    ensures err { OnErr result (core.new ≡ core.old) }
{
    match heartbeat_of(line) {
        Some(node) => {
            beat(core, node, placed, outcome)?;
            Ok(None)
        }
        None => take_event(alloc, core, events, line, outcome),
    }
}

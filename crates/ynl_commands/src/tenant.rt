//! Telling a tenant what its partition sees of a script.

ghost use Rattle.std.specs.Prelude.{◌≡◌, IfOk, IsTrue};
ghost use Rattle.ynl_model.specs.Accepted.{is_accepted};
ghost use Rattle.ynl_model.specs.View.{is_sole};
ghost use Rattle.ynl_commands.specs.Input.{between};
ghost use Rattle.ynl_commands.specs.Telling.{lines_from, view_lines, HoldsEvent, HoldsSight, IsOpened, SaysLines, TellsTenant, TellsWhole};

use crate::lines_out::{hold_text, write_held, write_on};
use crate::run::{Summary, ToolFault, report};
use crate::script_in::read_script;
use std::alloc::Global;
use std::io::{BufRead, Write};
use ynl_core::{Core, NoMemory};
use ynl_lines::{InputFault, put_line};
use ynl_model::Event;
use ynl_packed::{Events, any_event};
use ynl_queues::Config;
use ynl_resource::{Label, Name};
use ynl_view::{Track, restrict, see_into};

/// How far a telling has come: the track after some events, and the tenant's cluster after those of
/// them that its partition sees.
#[derive(Drop)]
struct Stand {
    track: Track,
    core: Core,
}

impl Stand {
    /// Before the first event.
    fn open(alloc: Global, config: &Config, tenant: &Name) -> Result<Stand, NoMemory>
        ensures { IfOk result (λ stand. IsOpened config.now tenant.now stand) }
    {
        let alone = restrict(alloc, config, tenant)?;
        Ok(Stand {
            track: Track::new(alloc),
            core: Core::open(alloc, alone)?,
        })
    }
}

/// Adds the line of an event to what is held back: its place, and the reply of the tenant's cluster to it.
fn hold_event(
    core: &mut Core,
    place: u64,
    event: &Event,
    text: &mut Vec<u8>,
    held: &mut Vec<u8>,
) -> Result<(), NoMemory>
    ensures { HoldsEvent held.old.items held.new.items core.old core.new place event.now result }
{
    let reply = core.answer(event)?;
    put_line(place, event, &Some(reply), text)?;
    hold_text(text, held)?;
    Ok(())
}

/// Tells of the next event, if the partition sees it.
fn hold_sight(
    config: &Config,
    tenant: &Name,
    label: &Label,
    stand: &mut Stand,
    place: u64,
    event: &Event,
    text: &mut Vec<u8>,
    held: &mut Vec<u8>,
) -> Result<(), NoMemory>
    ensures { HoldsSight held.old.items held.new.items config.now tenant.now label.now stand.old stand.new place event.now result }
{
    let mut seen = *event;
    if see_into(config, tenant, label, &mut stand.track, event, &mut seen)? {
        hold_event(&mut stand.core, place, &seen, text, held)?;
    }
    Ok(())
}

/// Tells of the events, one after another.
fn tell_events<W: Write>(
    alloc: Global,
    config: &Config,
    tenant: &Name,
    label: &Label,
    stand: &mut Stand,
    events: &Events,
    writer: &mut W,
) -> Result<(), ToolFault>
    ensures { SaysLines (W.contents writer.old) (W.contents writer.new) (lines_from config.now tenant.now label.now stand.old.core 0 stand.old.track events.now) result }
{
    let mut told = Vec::new(alloc);
    let mut held = Vec::new(alloc);
    let mut event = any_event();
    for i in 0..events.len() {
        events.read(i, &mut event);
        match hold_sight(
            config, tenant, label, stand, i as u64, &event, &mut told, &mut held,
        ) {
            Ok(()) => write_on(writer, &mut held)?,
            Err(NoMemory) => {
                write_held(writer, &mut held)?;
                return Err(ToolFault::NoMemory);
            }
        }
    }
    write_held(writer, &mut held)?;
    Ok(())
}

/// Tells the tenant what its partition sees of the events.
fn tell_view<W: Write>(
    alloc: Global,
    config: &Config,
    tenant: &Name,
    label: &Label,
    events: &Events,
    writer: &mut W,
) -> Result<(), ToolFault>
    ensures { SaysLines (W.contents writer.old) (W.contents writer.new) (view_lines config.now tenant.now label.now events.now) result }
{
    let mut stand = Stand::open(alloc, config, tenant)?;
    tell_events(alloc, config, tenant, label, &mut stand, events, writer)
}

/// Reads the script, and only then writes what the tenant's partition sees of its events: each in a
/// line with its place in the script and the reply of a cluster that holds the tenant alone. A line
/// with a fault ends the script, and is reported in the last line written. Under an accepted configuration
/// the contract gives the whole promise of isolation for these events.
///
/// After a read fault nothing is written; where memory was refused, whole lines from the front; after
/// a write fault a front of the text.
pub fn tenant_lines<R: BufRead, W: Write>(
    alloc: Global,
    config: Config,
    tenant: &Name,
    label: &Label,
    reader: &mut R,
    writer: &mut W,
) -> Result<Summary, ToolFault>
    requires { IsTrue (is_sole config tenant.now label.now) }
    ensures whole { TellsWhole (between (R.remaining reader.old) (R.remaining reader.new)) (between (W.contents writer.old) (W.contents writer.new)) (is_accepted config) config tenant.now label.now result }
    ensures steps { TellsTenant (between (R.remaining reader.old) (R.remaining reader.new)) (between (W.contents writer.old) (W.contents writer.new)) (is_accepted config) config tenant.now label.now result }
{
    let script = read_script(alloc, reader)?;
    tell_view(alloc, &config, tenant, label, &script.events, writer)?;
    match script.fault {
        Some(fault) => report(alloc, writer, InputFault::Script(fault), script.lines),
        None => Ok(Summary {
            lines: script.lines,
            fault: None,
        }),
    }
}

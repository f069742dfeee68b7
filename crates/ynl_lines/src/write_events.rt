//! The texts of events, added piece by piece.

ghost use Rattle.std.specs.Prelude.{◌≡◌, ◌++◌, ◌≤◌, OnOk, None, Some};
ghost use Rattle.serde_json.specs.Written.{compact_text};
ghost use Rattle.ynl_resource.specs.Amounts.{IsSize};
ghost use Rattle.ynl_resource.specs.Ranges.{whole};
ghost use Rattle.ynl_lines.specs.Sound.{IsEvent, IsLabel, IsName, IsPath, IsProposal};
ghost use Rattle.ynl_lines.specs.Writing as spec;

use crate::write_proposals::add_proposal;
use std::alloc::AllocError;
use ynl_fields::{add, add_id, add_label, add_name, add_number, add_path};
use ynl_model::{Event, Proposal};
use ynl_resource::{Hundredths, Id, Label, Name, Path, Size};

fn add_register(
    text: &mut Vec<u8>,
    node: &Name,
    label: &Label,
    size: &Size,
) -> Result<(), AllocError>
    ensures added { OnOk result (text.new.items ≡ text.old.items ++ compact_text (spec.register_data node.now label.now size.now)) }
    ensures sound { OnOk result (IsName node.now × IsLabel label.now × IsSize size.now) }
{
    let size = size.amount();
    add_label(text, b"{\"event\":\"register\",\"label\":\"", label)?;
    add_number(text, b"\",\"memory\":", size.memory)?;
    add_name(text, b",\"node\":\"", node)?;
    add_number(text, b"\",\"vcores\":", size.vcores)?;
    add(text, b"}")
}

fn add_lost(text: &mut Vec<u8>, node: &Name) -> Result<(), AllocError>
    ensures added { OnOk result (text.new.items ≡ text.old.items ++ compact_text (spec.lost_data node.now)) }
    ensures sound { OnOk result (IsName node.now) }
{
    add_name(text, b"{\"event\":\"lost\",\"node\":\"", node)?;
    add(text, b"\"}")
}

fn add_relabel(text: &mut Vec<u8>, node: &Name, label: &Label) -> Result<(), AllocError>
    ensures added { OnOk result (text.new.items ≡ text.old.items ++ compact_text (spec.relabel_data node.now label.now)) }
    ensures sound { OnOk result (IsName node.now × IsLabel label.now) }
{
    add_label(text, b"{\"event\":\"relabel\",\"label\":\"", label)?;
    add_name(text, b"\",\"node\":\"", node)?;
    add(text, b"\"}")
}

fn add_heartbeat(text: &mut Vec<u8>, node: &Name) -> Result<(), AllocError>
    ensures added { OnOk result (text.new.items ≡ text.old.items ++ compact_text (spec.heartbeat_data node.now)) }
    ensures sound { OnOk result (IsName node.now) }
{
    add_name(text, b"{\"event\":\"heartbeat\",\"node\":\"", node)?;
    add(text, b"\"}")
}

fn add_exited(text: &mut Vec<u8>, node: &Name, id: &Id) -> Result<(), AllocError>
    ensures added { OnOk result (text.new.items ≡ text.old.items ++ compact_text (spec.exited_data node.now id.now)) }
    ensures sound { OnOk result (IsName node.now × IsLabel id.now.label) }
{
    add_id(text, b"{\"event\":\"exited\",\"id\":\"", id)?;
    add_name(text, b"\",\"node\":\"", node)?;
    add(text, b"\"}")
}

/// Adds a submit with no label.
fn add_submit(
    text: &mut Vec<u8>,
    queue: &Path,
    app: &Name,
    user: &Name,
    master: &Size,
) -> Result<(), AllocError>
    ensures added { OnOk result (text.new.items ≡ text.old.items ++ compact_text (spec.submit_data queue.now app.now user.now None master.now)) }
    ensures sound { OnOk result (IsPath queue.now × IsName app.now × IsName user.now × IsSize master.now) }
{
    let size = master.amount();
    add_name(text, b"{\"app\":\"", app)?;
    add_number(text, b"\",\"event\":\"submit\",\"memory\":", size.memory)?;
    add_path(text, b",\"queue\":\"", queue)?;
    add_name(text, b"\",\"user\":\"", user)?;
    add_number(text, b"\",\"vcores\":", size.vcores)?;
    add(text, b"}")
}

/// Adds a submit under a label.
fn add_labelled(
    text: &mut Vec<u8>,
    queue: &Path,
    app: &Name,
    user: &Name,
    label: &Label,
    master: &Size,
) -> Result<(), AllocError>
    ensures added { OnOk result (text.new.items ≡ text.old.items ++ compact_text (spec.submit_data queue.now app.now user.now (Some label.now) master.now)) }
    ensures sound { OnOk result (IsPath queue.now × IsName app.now × IsName user.now × IsLabel label.now × IsSize master.now) }
{
    let size = master.amount();
    add_name(text, b"{\"app\":\"", app)?;
    add_label(text, b"\",\"event\":\"submit\",\"label\":\"", label)?;
    add_number(text, b"\",\"memory\":", size.memory)?;
    add_path(text, b",\"queue\":\"", queue)?;
    add_name(text, b"\",\"user\":\"", user)?;
    add_number(text, b"\",\"vcores\":", size.vcores)?;
    add(text, b"}")
}

fn add_ask(
    text: &mut Vec<u8>,
    tenant: &Name,
    app: &Name,
    label: &Label,
    priority: u32,
    count: u32,
    size: &Size,
) -> Result<(), AllocError>
    ensures added { OnOk result (text.new.items ≡ text.old.items ++ compact_text (spec.ask_data tenant.now app.now label.now priority count size.now)) }
    ensures sound { OnOk result (IsName tenant.now × IsName app.now × IsLabel label.now × IsSize size.now) }
{
    let size = size.amount();
    add_name(text, b"{\"app\":\"", app)?;
    add_number(text, b"\",\"count\":", u64::from(count))?;
    add_label(text, b",\"event\":\"ask\",\"label\":\"", label)?;
    add_number(text, b"\",\"memory\":", size.memory)?;
    add_number(text, b",\"priority\":", u64::from(priority))?;
    add_name(text, b",\"tenant\":\"", tenant)?;
    add_number(text, b"\",\"vcores\":", size.vcores)?;
    add(text, b"}")
}

fn add_release(text: &mut Vec<u8>, tenant: &Name, id: &Id) -> Result<(), AllocError>
    ensures added { OnOk result (text.new.items ≡ text.old.items ++ compact_text (spec.release_data tenant.now id.now)) }
    ensures sound { OnOk result (IsName tenant.now × IsLabel id.now.label) }
{
    add_id(text, b"{\"event\":\"release\",\"id\":\"", id)?;
    add_name(text, b"\",\"tenant\":\"", tenant)?;
    add(text, b"\"}")
}

fn add_finish(text: &mut Vec<u8>, tenant: &Name, app: &Name) -> Result<(), AllocError>
    ensures added { OnOk result (text.new.items ≡ text.old.items ++ compact_text (spec.finish_data tenant.now app.now)) }
    ensures sound { OnOk result (IsName tenant.now × IsName app.now) }
{
    add_name(text, b"{\"app\":\"", app)?;
    add_name(text, b"\",\"event\":\"finish\",\"tenant\":\"", tenant)?;
    add(text, b"\"}")
}

fn add_stop(text: &mut Vec<u8>, queue: &Path) -> Result<(), AllocError>
    ensures added { OnOk result (text.new.items ≡ text.old.items ++ compact_text (spec.stop_data queue.now)) }
    ensures sound { OnOk result (IsPath queue.now) }
{
    add_path(text, b"{\"event\":\"stop\",\"queue\":\"", queue)?;
    add(text, b"\"}")
}

fn add_start(text: &mut Vec<u8>, queue: &Path) -> Result<(), AllocError>
    ensures added { OnOk result (text.new.items ≡ text.old.items ++ compact_text (spec.start_data queue.now)) }
    ensures sound { OnOk result (IsPath queue.now) }
{
    add_path(text, b"{\"event\":\"start\",\"queue\":\"", queue)?;
    add(text, b"\"}")
}

fn add_poll(text: &mut Vec<u8>, tenant: &Name, app: &Name, label: &Label) -> Result<(), AllocError>
    ensures added { OnOk result (text.new.items ≡ text.old.items ++ compact_text (spec.poll_data tenant.now app.now label.now)) }
    ensures sound { OnOk result (IsName tenant.now × IsName app.now × IsLabel label.now) }
{
    add_name(text, b"{\"app\":\"", app)?;
    add_label(text, b"\",\"event\":\"poll\",\"label\":\"", label)?;
    add_name(text, b"\",\"tenant\":\"", tenant)?;
    add(text, b"\"}")
}

fn add_usage(text: &mut Vec<u8>, queue: &Path, label: &Label) -> Result<(), AllocError>
    ensures added { OnOk result (text.new.items ≡ text.old.items ++ compact_text (spec.usage_event_data queue.now label.now)) }
    ensures sound { OnOk result (IsPath queue.now × IsLabel label.now) }
{
    add_label(text, b"{\"event\":\"usage\",\"label\":\"", label)?;
    add_path(text, b"\",\"queue\":\"", queue)?;
    add(text, b"\"}")
}

fn add_propose(text: &mut Vec<u8>, node: &Name) -> Result<(), AllocError>
    ensures added { OnOk result (text.new.items ≡ text.old.items ++ compact_text (spec.propose_data node.now)) }
    ensures sound { OnOk result (IsName node.now) }
{
    add_name(text, b"{\"event\":\"propose\",\"node\":\"", node)?;
    add(text, b"\"}")
}

fn add_commit(text: &mut Vec<u8>, proposal: &Proposal) -> Result<(), AllocError>
    ensures added { OnOk result (text.new.items ≡ text.old.items ++ compact_text (spec.commit_data proposal.now)) }
    ensures sound { OnOk result (IsProposal proposal.now) }
{
    add(text, b"{\"event\":\"commit\",\"proposal\":")?;
    add_proposal(text, proposal)?;
    add(text, b"}")
}

fn add_maximum(
    text: &mut Vec<u8>,
    queue: &Path,
    label: &Label,
    maximum: &Hundredths,
) -> Result<(), AllocError>
    ensures added { OnOk result (text.new.items ≡ text.old.items ++ compact_text (spec.maximum_data queue.now label.now maximum.now)) }
    ensures sound { OnOk result (IsPath queue.now × IsLabel label.now × (maximum.now ≤ whole)) }
{
    add_label(text, b"{\"event\":\"maximum\",\"label\":\"", label)?;
    add_number(text, b"\",\"maximum\":", maximum.number())?;
    add_path(text, b",\"queue\":\"", queue)?;
    add(text, b"\"}")
}

/// Adds the text of an event.
pub fn add_event(text: &mut Vec<u8>, event: &Event) -> Result<(), AllocError>
    ensures added { OnOk result (text.new.items ≡ text.old.items ++ spec.event_text event.now) }
    ensures sound { OnOk result (IsEvent event.now) }
{
    match event {
        Event::Register { node, label, size } => add_register(text, node, label, size),
        Event::Lost { node } => add_lost(text, node),
        Event::Relabel { node, label } => add_relabel(text, node, label),
        Event::Heartbeat { node } => add_heartbeat(text, node),
        Event::Exited { node, id } => add_exited(text, node, id),
        Event::Submit {
            queue,
            app,
            user,
            label,
            master,
        } => match label {
            None => add_submit(text, queue, app, user, master),
            Some(label) => add_labelled(text, queue, app, user, label, master),
        },
        Event::Ask {
            tenant,
            app,
            label,
            priority,
            count,
            size,
        } => add_ask(text, tenant, app, label, *priority, *count, size),
        Event::Release { tenant, id } => add_release(text, tenant, id),
        Event::Finish { tenant, app } => add_finish(text, tenant, app),
        Event::Stop { queue } => add_stop(text, queue),
        Event::Start { queue } => add_start(text, queue),
        Event::Poll { tenant, app, label } => add_poll(text, tenant, app, label),
        Event::Usage { queue, label } => add_usage(text, queue, label),
        Event::Propose { node } => add_propose(text, node),
        Event::Commit { proposal } => add_commit(text, proposal),
        Event::Maximum {
            queue,
            label,
            maximum,
        } => add_maximum(text, queue, label, maximum),
    }
}

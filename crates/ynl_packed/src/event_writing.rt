//! Events added at the end of bytes.

ghost use Rattle.std.specs.Prelude.{◌≡◌, ◌++◌, ◌∷◌, OnOk, IfSome};
ghost use Rattle.ynl_packed.specs.Fits.{FitsName, FitsLabel, FitsPath, FitsId, FitsEvent};
ghost use Rattle.ynl_packed.specs.Spelling.{text_bytes, label_bytes, path_bytes, id_bytes, option_bytes, event_bytes};
ghost use Rattle.ynl_model.specs.declared.events.Event.TheVariants.{Register, Submit, Ask, Poll, Maximum};

use crate::writing::{put_id, put_label, put_name, put_path, put_proposal, put_size, put_small};
use std::alloc::{AllocError, Global};
use ynl_model::Event;
use ynl_resource::{Hundredths, Id, Label, Name, Path, Size};

fn put_choice(bytes: &mut Vec<u8>, label: &Option<Label>) -> Result<(), AllocError>
    ensures put { OnOk result (bytes.new.items ≡ bytes.old.items ++ option_bytes label_bytes label.now) }
    ensures fits { OnOk result (IfSome label.now FitsLabel) }
{
    match label {
        None => Ok(bytes.push(0)?),
        Some(label) => {
            bytes.push(1)?;
            put_label(bytes, label)
        }
    }
}

/// Adds a byte for the kind, and a name.
fn put_named(bytes: &mut Vec<u8>, kind: u8, name: &Name) -> Result<(), AllocError>
    ensures put { OnOk result (bytes.new.items ≡ bytes.old.items ++ kind ∷ text_bytes name.now) }
    ensures fits { OnOk result (FitsName name.now) }
{
    bytes.push(kind)?;
    put_name(bytes, name)
}

/// Adds a byte for the kind, and a path.
fn put_located(alloc: Global, bytes: &mut Vec<u8>, kind: u8, queue: &Path) -> Result<(), AllocError>
    ensures put { OnOk result (bytes.new.items ≡ bytes.old.items ++ kind ∷ path_bytes queue.now) }
    ensures fits { OnOk result (FitsPath queue.now) }
{
    bytes.push(kind)?;
    put_path(alloc, bytes, queue)
}

fn put_register(
    bytes: &mut Vec<u8>,
    node: &Name,
    label: &Label,
    size: &Size,
) -> Result<(), AllocError>
    ensures put { OnOk result (bytes.new.items
        ≡ bytes.old.items ++ event_bytes (Register node.now label.now size.now)) }
    ensures fits { OnOk result (FitsEvent (Register node.now label.now size.now)) }
{
    put_named(bytes, 0, node)?;
    put_label(bytes, label)?;
    put_size(bytes, size)
}

/// Adds a byte for the kind, a name, and the id of a container.
fn put_ended(bytes: &mut Vec<u8>, kind: u8, name: &Name, id: &Id) -> Result<(), AllocError>
    ensures put { OnOk result (bytes.new.items
        ≡ bytes.old.items ++ kind ∷ (text_bytes name.now ++ id_bytes id.now)) }
    ensures fits { OnOk result (FitsName name.now × FitsId id.now) }
{
    put_named(bytes, kind, name)?;
    put_id(bytes, id)
}

fn put_submit(
    alloc: Global,
    bytes: &mut Vec<u8>,
    queue: &Path,
    app: &Name,
    user: &Name,
    label: &Option<Label>,
    master: &Size,
) -> Result<(), AllocError>
    ensures put { OnOk result (bytes.new.items
        ≡ bytes.old.items ++ event_bytes (Submit queue.now app.now user.now label.now master.now)) }
    ensures fits { OnOk result
        (FitsEvent (Submit queue.now app.now user.now label.now master.now)) }
{
    put_located(alloc, bytes, 5, queue)?;
    put_name(bytes, app)?;
    put_name(bytes, user)?;
    put_choice(bytes, label)?;
    put_size(bytes, master)
}

fn put_ask(
    bytes: &mut Vec<u8>,
    tenant: &Name,
    app: &Name,
    label: &Label,
    priority: u32,
    count: u32,
    size: &Size,
) -> Result<(), AllocError>
    ensures put { OnOk result (bytes.new.items
        ≡ bytes.old.items ++ event_bytes (Ask tenant.now app.now label.now priority count size.now)) }
    ensures fits { OnOk result
        (FitsEvent (Ask tenant.now app.now label.now priority count size.now)) }
{
    put_named(bytes, 6, tenant)?;
    put_name(bytes, app)?;
    put_label(bytes, label)?;
    put_small(bytes, priority)?;
    put_small(bytes, count)?;
    put_size(bytes, size)
}

fn put_poll(bytes: &mut Vec<u8>, tenant: &Name, app: &Name, label: &Label) -> Result<(), AllocError>
    ensures put { OnOk result (bytes.new.items
        ≡ bytes.old.items ++ event_bytes (Poll tenant.now app.now label.now)) }
    ensures fits { OnOk result (FitsEvent (Poll tenant.now app.now label.now)) }
{
    put_named(bytes, 11, tenant)?;
    put_name(bytes, app)?;
    put_label(bytes, label)
}

fn put_maximum(
    alloc: Global,
    bytes: &mut Vec<u8>,
    queue: &Path,
    label: &Label,
    maximum: Hundredths,
) -> Result<(), AllocError>
    ensures put { OnOk result (bytes.new.items
        ≡ bytes.old.items ++ event_bytes (Maximum queue.now label.now maximum)) }
    ensures fits { OnOk result (FitsEvent (Maximum queue.now label.now maximum)) }
{
    put_located(alloc, bytes, 15, queue)?;
    put_label(bytes, label)?;
    put_small(bytes, maximum.number() as u32)
}

/// Adds an event. Those of many fields have functions of their own, as a proof of many steps takes long.
pub(crate) fn put_event(alloc: Global, bytes: &mut Vec<u8>, event: &Event) -> Result<(), AllocError>
    ensures put { OnOk result (bytes.new.items ≡ bytes.old.items ++ event_bytes event.now) }
    ensures fits { OnOk result (FitsEvent event.now) }
{
    match event {
        Event::Register { node, label, size } => put_register(bytes, node, label, size),
        Event::Lost { node } => put_named(bytes, 1, node),
        Event::Relabel { node, label } => {
            put_named(bytes, 2, node)?;
            put_label(bytes, label)
        }
        Event::Heartbeat { node } => put_named(bytes, 3, node),
        Event::Exited { node, id } => put_ended(bytes, 4, node, id),
        Event::Submit {
            queue,
            app,
            user,
            label,
            master,
        } => put_submit(alloc, bytes, queue, app, user, label, master),
        Event::Ask {
            tenant,
            app,
            label,
            priority,
            count,
            size,
        } => put_ask(bytes, tenant, app, label, *priority, *count, size),
        Event::Release { tenant, id } => put_ended(bytes, 7, tenant, id),
        Event::Finish { tenant, app } => {
            put_named(bytes, 8, tenant)?;
            put_name(bytes, app)
        }
        Event::Stop { queue } => put_located(alloc, bytes, 9, queue),
        Event::Start { queue } => put_located(alloc, bytes, 10, queue),
        Event::Poll { tenant, app, label } => put_poll(bytes, tenant, app, label),
        Event::Usage { queue, label } => {
            put_located(alloc, bytes, 12, queue)?;
            put_label(bytes, label)
        }
        Event::Propose { node } => put_named(bytes, 13, node),
        Event::Commit { proposal } => {
            bytes.push(14)?;
            put_proposal(bytes, proposal)
        }
        Event::Maximum {
            queue,
            label,
            maximum,
        } => put_maximum(alloc, bytes, queue, label, *maximum),
    }
}

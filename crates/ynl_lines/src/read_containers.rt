//! From objects to containers, and to what is still asked for.

ghost use Rattle.std.specs.Prelude.{◌≡◌, [], ◌∷◌, ◌++◌, IfOk, OnOk};
ghost use Rattle.serde_json.specs.View.{items_view};
ghost use Rattle.ynl_fields.specs.Trees.{data_at};
ghost use Rattle.ynl_lines.specs.ReadingReplies as spec;

use crate::faults::LineFault;
use crate::read_proposals::{wanted_at, wanted_label_at, what_at};
use serde_json::Value;
use std::alloc::{AllocError, Global};
use ynl_fields::{Fields, id_at, keys_are, name_at, number_at, size_at, text_at, within_small};
use ynl_model::{Items, Pending, Placed, What};
use ynl_resource::{Id, MOST_COUNT, Name, Size};

/// The name that is under a key.
#[tactic(auto, unfolding(crate::specs::ReadingReplies::name_under))]
fn name_under(object: &Fields<'_, '_>, key: &str) -> Result<Name, LineFault>
    ensures { result ≡ spec.name_under key.now (data_at object.now.stands) }
{
    let text = text_at(object, key, LineFault::Field)?;
    name_at(text, LineFault::Name)
}

/// The id that is under a key.
#[tactic(auto, unfolding(crate::specs::ReadingReplies::id_under))]
fn id_under(object: &Fields<'_, '_>, key: &str) -> Result<Id, LineFault>
    ensures { result ≡ spec.id_under key.now (data_at object.now.stands) }
{
    let text = text_at(object, key, LineFault::Field)?;
    id_at(text, LineFault::Name)
}

/// The size whose memory (in MB) and virtual cores an object tells.
#[tactic(auto, unfolding(crate::specs::ReadingReplies::size_in))]
fn size_in(object: &Fields<'_, '_>) -> Result<Size, LineFault>
    ensures { result ≡ spec.size_in (data_at object.now.stands) }
{
    let memory = number_at(object, "memory", LineFault::Field)?;
    let vcores = number_at(object, "vcores", LineFault::Field)?;
    size_at(memory, vcores, LineFault::Range)
}

/// What a container is for.
#[tactic(auto, unfolding(crate::specs::ReadingReplies::what_in))]
fn what_in(object: &Fields<'_, '_>) -> Result<What, LineFault>
    ensures { result ≡ spec.what_in (data_at object.now.stands) }
{
    let wanted = wanted_at(object)?;
    let wanted = wanted_label_at(wanted)?;
    what_at(wanted)
}

/// A container; its `label` and `priority` are there just where it was asked for.
#[tactic(auto, unfolding(crate::specs::ReadingReplies::placed_at))]
pub fn placed_at(object: &Fields<'_, '_>) -> Result<Placed, LineFault>
    ensures { result ≡ spec.placed_at (data_at object.now.stands) }
{
    let what = what_in(object)?;
    let app = name_under(object, "app")?;
    let id = id_under(object, "id")?;
    let node = name_under(object, "node")?;
    let tenant = name_under(object, "tenant")?;
    let size = size_in(object)?;
    Ok(Placed {
        id,
        node,
        tenant,
        app,
        what,
        size,
    })
}

/// What is still asked for at one priority.
#[tactic(auto, unfolding(crate::specs::ReadingReplies::pending_at))]
fn pending_at(object: &Fields<'_, '_>) -> Result<Pending, LineFault>
    ensures { result ≡ spec.pending_at (data_at object.now.stands) }
{
    keys_are(object, 4, LineFault::Field)?;
    let count = number_at(object, "count", LineFault::Field)?;
    let priority = number_at(object, "priority", LineFault::Field)?;
    let count = within_small(MOST_COUNT, count, LineFault::Range)?;
    let priority = within_small(u32::MAX, priority, LineFault::Range)?;
    let size = size_in(object)?;
    Ok(Pending {
        priority,
        count,
        size,
    })
}

/// A copy of a container comes last, put together from its parts, as the prover needs it.
fn push_copy(list: &mut Vec<Placed>, container: &Placed) -> Result<(), AllocError>
    ensures { OnOk result (list.new.items ≡ list.old.items ++ container.now ∷ []) }
{
    list.push(Placed {
        id: Id {
            label: container.id.label,
            clock: container.id.clock,
        },
        node: container.node,
        tenant: container.tenant,
        app: container.app,
        what: container.what,
        size: container.size,
    })?;
    Ok(())
}

/// The containers that the values of a list are.
pub fn each_placed(
    alloc: Global,
    values: &[Value],
) -> Result<Result<Items<Placed>, LineFault>, AllocError>
    ensures { IfOk result (λ read. read ≡ spec.each spec.placed_at (items_view values.now)) }
{
    let mut list = Vec::new(alloc);
    for value in values {
        match placed_at(&Fields::value(value)) {
            Ok(one) => push_copy(&mut list, &one)?,
            Err(fault) => return Ok(Err(fault)),
        }
    }
    Ok(Ok(Items::new(list)))
}

/// What is still asked for, by the values of a list.
pub fn each_pending(
    alloc: Global,
    values: &[Value],
) -> Result<Result<Items<Pending>, LineFault>, AllocError>
    ensures { IfOk result (λ read. read ≡ spec.each spec.pending_at (items_view values.now)) }
{
    let mut list = Vec::new(alloc);
    for value in values {
        match pending_at(&Fields::value(value)) {
            Ok(one) => list.push(one)?,
            Err(fault) => return Ok(Err(fault)),
        }
    }
    Ok(Ok(Items::new(list)))
}

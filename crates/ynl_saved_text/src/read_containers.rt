//! From objects to the lines of containers.

ghost use Rattle.std.specs.Prelude.{◌≡◌, option_map};
ghost use Rattle.ynl_fields.specs.Trees.{data_at};
ghost use Rattle.ynl_saved_text.specs.StateLines as spec;

use crate::faults::StateFault;
use ynl_fields::{
    Fields, id_at, keys_are, label_at, name_at, number_at, size_at, text_at, within_small,
};
use ynl_model::{Placed, What};
use ynl_resource::Label;
use ynl_saved::StateLine;

/// `container`: its `label` and `priority` are there just where it was asked for.
#[tactic(auto, unfolding(crate::specs::StateLines::container_at, crate::specs::StateLines::wanted_at))]
pub fn container_at(object: &Fields<'_, '_>) -> Result<StateLine, StateFault>
    ensures { result ≡ spec.container_at (data_at object.now.stands) }
{
    let what = text_at(object, "what", StateFault::Field)?;
    if what == "master" {
        keys_are(object, 8, StateFault::Field)?;
        container_with(object, None)
    } else if what == "ask" {
        asked_at(object)
    } else {
        Err(StateFault::Field)
    }
}

/// A container that was asked for.
#[tactic(auto, unfolding(crate::specs::StateLines::asked_at))]
fn asked_at(object: &Fields<'_, '_>) -> Result<StateLine, StateFault>
    ensures { result ≡ spec.asked_container (data_at object.now.stands) }
{
    keys_are(object, 10, StateFault::Field)?;
    let label = text_at(object, "label", StateFault::Field)?;
    let priority = number_at(object, "priority", StateFault::Field)?;
    container_with(object, Some((label, priority)))
}

/// A container, whose label and priority are wanted where it was asked for.
fn container_with(
    object: &Fields<'_, '_>,
    wanted: Option<(&str, u64)>,
) -> Result<StateLine, StateFault>
    ensures { result ≡ spec.container_with (data_at object.now.stands) (option_map (λ wanted. (wanted.0.now, wanted.1)) wanted.entry) }
{
    let app = text_at(object, "app", StateFault::Field)?;
    let id = text_at(object, "id", StateFault::Field)?;
    let memory = number_at(object, "memory", StateFault::Field)?;
    let node = text_at(object, "node", StateFault::Field)?;
    let tenant = text_at(object, "tenant", StateFault::Field)?;
    let vcores = number_at(object, "vcores", StateFault::Field)?;
    container_of(wanted, app, id, memory, node, tenant, vcores)
}

/// What is wanted, with the label read.
#[tactic(auto, unfolding(crate::specs::StateLines::wanted_label_at))]
fn wanted_label_at(wanted: Option<(&str, u64)>) -> Result<Option<(Label, u64)>, StateFault>
    ensures { result ≡ spec.wanted_label_at (option_map (λ wanted. (wanted.0.now, wanted.1)) wanted.entry) }
{
    match wanted {
        None => Ok(None),
        Some((text, priority)) => {
            let label = label_at(text, StateFault::Name)?;
            Ok(Some((label, priority)))
        }
    }
}

/// What the container is for.
#[tactic(auto, unfolding(crate::specs::StateLines::what_at))]
fn what_at(wanted: Option<(Label, u64)>) -> Result<What, StateFault>
    ensures { result ≡ spec.what_at wanted }
{
    match wanted {
        None => Ok(What::Master),
        Some((label, priority)) => {
            let priority = within_small(u32::MAX, priority, StateFault::Range)?;
            Ok(What::Ask(label, priority))
        }
    }
}

/// A container, from what stands under its keys.
fn container_of(
    wanted: Option<(&str, u64)>,
    app: &str,
    id: &str,
    memory: u64,
    node: &str,
    tenant: &str,
    vcores: u64,
) -> Result<StateLine, StateFault>
    ensures { result ≡ spec.container_of (option_map (λ wanted. (wanted.0.now, wanted.1)) wanted.entry) app.now id.now memory node.now tenant.now vcores }
{
    let app = name_at(app, StateFault::Name)?;
    let id = id_at(id, StateFault::Name)?;
    let wanted = wanted_label_at(wanted)?;
    let node = name_at(node, StateFault::Name)?;
    let tenant = name_at(tenant, StateFault::Name)?;
    let what = what_at(wanted)?;
    let size = size_at(memory, vcores, StateFault::Range)?;
    Ok(StateLine::Container(Placed {
        id,
        node,
        tenant,
        app,
        what,
        size,
    }))
}

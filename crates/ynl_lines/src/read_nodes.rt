//! From objects to the events of nodes.

ghost use Rattle.std.specs.Prelude.{◌≡◌, OnOk};
ghost use Rattle.ynl_fields.specs.Trees.{data_at};
ghost use Rattle.ynl_lines.specs.Reading.{Gives, IsRanged};
ghost use Rattle.ynl_lines.specs.Reading as spec;

use crate::faults::LineFault;
use ynl_fields::{Fields, id_at, keys_are, label_at, name_at, number_at, size_at, text_at};
use ynl_model::Event;
use ynl_resource::Name;

/// `register`: a node joins.
#[tactic(auto, unfolding(crate::specs::Reading::register_at))]
pub fn register_at(event: &Fields<'_, '_>, into: &mut Event) -> Result<(), LineFault>
    ensures event { Gives (λ _. into.new) result (spec.register_at (data_at event.now.stands)) }
    ensures ranged { OnOk result (IsRanged into.new) }
{
    keys_are(event, 5, LineFault::Field)?;
    let label = text_at(event, "label", LineFault::Field)?;
    let memory = number_at(event, "memory", LineFault::Field)?;
    let node = text_at(event, "node", LineFault::Field)?;
    let vcores = number_at(event, "vcores", LineFault::Field)?;
    let label = label_at(label, LineFault::Name)?;
    let node = name_at(node, LineFault::Name)?;
    let size = size_at(memory, vcores, LineFault::Range)?;
    *into = Event::Register { node, label, size };
    Ok(())
}

/// The node of an event that names nothing but a node.
#[tactic(auto, unfolding(crate::specs::Reading::node_at))]
pub fn node_at(event: &Fields<'_, '_>) -> Result<Name, LineFault>
    ensures { result ≡ spec.node_at (data_at event.now.stands) }
{
    keys_are(event, 2, LineFault::Field)?;
    let node = text_at(event, "node", LineFault::Field)?;
    name_at(node, LineFault::Name)
}

/// `lost`: a node is lost.
#[tactic(auto, unfolding(crate::specs::Reading::lost_at))]
pub fn lost_at(event: &Fields<'_, '_>, into: &mut Event) -> Result<(), LineFault>
    ensures event { Gives (λ _. into.new) result (spec.lost_at (data_at event.now.stands)) }
    ensures ranged { OnOk result (IsRanged into.new) }
{
    let node = node_at(event)?;
    *into = Event::Lost { node };
    Ok(())
}

/// `relabel`: a node goes to another partition.
#[tactic(auto, unfolding(crate::specs::Reading::relabel_at))]
pub fn relabel_at(event: &Fields<'_, '_>, into: &mut Event) -> Result<(), LineFault>
    ensures event { Gives (λ _. into.new) result (spec.relabel_at (data_at event.now.stands)) }
    ensures ranged { OnOk result (IsRanged into.new) }
{
    keys_are(event, 3, LineFault::Field)?;
    let label = text_at(event, "label", LineFault::Field)?;
    let node = text_at(event, "node", LineFault::Field)?;
    let label = label_at(label, LineFault::Name)?;
    let node = name_at(node, LineFault::Name)?;
    *into = Event::Relabel { node, label };
    Ok(())
}

/// `heartbeat`: a node is ready for more.
#[tactic(auto, unfolding(crate::specs::Reading::heartbeat_at))]
pub fn heartbeat_at(event: &Fields<'_, '_>, into: &mut Event) -> Result<(), LineFault>
    ensures event { Gives (λ _. into.new) result (spec.heartbeat_at (data_at event.now.stands)) }
    ensures ranged { OnOk result (IsRanged into.new) }
{
    let node = node_at(event)?;
    *into = Event::Heartbeat { node };
    Ok(())
}

/// `exited`: a container ended by itself.
#[tactic(auto, unfolding(crate::specs::Reading::exited_at))]
pub fn exited_at(event: &Fields<'_, '_>, into: &mut Event) -> Result<(), LineFault>
    ensures event { Gives (λ _. into.new) result (spec.exited_at (data_at event.now.stands)) }
    ensures ranged { OnOk result (IsRanged into.new) }
{
    keys_are(event, 3, LineFault::Field)?;
    let id = text_at(event, "id", LineFault::Field)?;
    let node = text_at(event, "node", LineFault::Field)?;
    let id = id_at(id, LineFault::Name)?;
    let node = name_at(node, LineFault::Name)?;
    *into = Event::Exited { node, id };
    Ok(())
}

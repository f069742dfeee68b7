//! What happens to nodes, and what is to be placed on one.

ghost use Rattle.std.specs.Prelude.{◌≡◌, None, Some, IfErr, IfNone, IfOk, IfSome};
ghost use Rattle.ynl_resource.specs.Refusals.{first_that_holds};
ghost use Rattle.ynl_resource.specs.declared.amounts.Resource.{Resource};
ghost use Rattle.ynl_model.specs.Cluster.{node_of};
ghost use Rattle.ynl_model.specs.Events.{reasons};
ghost use Rattle.ynl_model.specs.declared.events.Event.TheVariants as event;
ghost use Rattle.ynl_cluster.specs.Cluster.{state_in};
ghost use Rattle.ynl_replies.specs.admission.Named.{IsNodeNamed};
ghost use Rattle.ynl_replies.specs.admission.Admitted.{CanJoin, CanPlaceOn, CanRelabel};

use crate::admission::partitions::partition_of;
use ynl_cluster::Cluster;
use ynl_resource::{Label, Name, Refusal};

/// A node by its number, and the number of the partition to which it goes.
#[derive(Clone, Copy)]
pub struct Moved {
    pub node: u32,
    pub partition: u8,
}

/// The number of the node of a name, if there is one.
pub fn node_named(cluster: &Cluster, name: &Name) -> Option<u32>
    ensures some { IfSome result (IsNodeNamed cluster.now name.now) }
    ensures none { IfNone result (node_of (state_in cluster.now) name.now ≡ None) }
{
    cluster.inventory().find_node(name)
}

/// The partition that a node of this name joins, or the first reason for which it joins none.
#[tactic(auto, unfolding(ynl_model::specs::Events::reasons))]
pub fn register(cluster: &Cluster, name: &Name, label: &Label) -> Result<u8, Refusal>
    ensures refused { IfErr result (λ refusal. (size : Resource)
        → first_that_holds (reasons cluster.now.config (state_in cluster.now)
        (event.Register name.now label.now size)) ≡ Some refusal) }
    ensures free { IfOk result (λ _. (size : Resource)
        → first_that_holds (reasons cluster.now.config (state_in cluster.now)
        (event.Register name.now label.now size)) ≡ None) }
    ensures joins { IfOk result (CanJoin cluster.now name.now label.now) }
{
    let Some(p) = partition_of(cluster, label) else {
        return Err(Refusal::NoSuchLabel);
    };
    if cluster.inventory().find_node(name).is_some() {
        return Err(Refusal::NodeExists);
    }
    if cluster.is_full(p) {
        return Err(Refusal::PartitionFull);
    }
    Ok(p)
}

/// The node that is lost, or the first reason for which none is.
#[tactic(auto, unfolding(ynl_model::specs::Events::reasons))]
pub fn lost(cluster: &Cluster, name: &Name) -> Result<u32, Refusal>
    ensures refused { IfErr result (λ refusal.
        first_that_holds (reasons cluster.now.config (state_in cluster.now)
        (event.Lost name.now)) ≡ Some refusal) }
    ensures free { IfOk result (λ _.
        first_that_holds (reasons cluster.now.config (state_in cluster.now)
        (event.Lost name.now)) ≡ None) }
    ensures node { IfOk result (IsNodeNamed cluster.now name.now) }
{
    match node_named(cluster, name) {
        Some(node) => Ok(node),
        None => Err(Refusal::NoSuchNode),
    }
}

/// The node that goes to the partition of a label, or the first reason for which it does not.
#[tactic(auto, unfolding(ynl_model::specs::Events::reasons))]
pub fn relabel(cluster: &Cluster, name: &Name, label: &Label) -> Result<Moved, Refusal>
    ensures refused { IfErr result (λ refusal.
        first_that_holds (reasons cluster.now.config (state_in cluster.now)
        (event.Relabel name.now label.now)) ≡ Some refusal) }
    ensures free { IfOk result (λ _.
        first_that_holds (reasons cluster.now.config (state_in cluster.now)
        (event.Relabel name.now label.now)) ≡ None) }
    ensures moves { IfOk result (CanRelabel cluster.now name.now label.now) }
{
    let Some(partition) = partition_of(cluster, label) else {
        return Err(Refusal::NoSuchLabel);
    };
    let Some(node) = node_named(cluster, name) else {
        return Err(Refusal::NoSuchNode);
    };
    if cluster.inventory().node(node).partition == partition {
        return Err(Refusal::SameLabel);
    }
    if cluster.is_full(partition) {
        return Err(Refusal::PartitionFull);
    }
    Ok(Moved { node, partition })
}

/// The node on which something is to be placed, or the first reason for which nothing is.
#[tactic(auto, unfolding(ynl_model::specs::Events::reasons))]
pub fn placing(cluster: &Cluster, name: &Name) -> Result<u32, Refusal>
    ensures refused { IfErr result (λ refusal.
        first_that_holds (reasons cluster.now.config (state_in cluster.now)
        (event.Heartbeat name.now)) ≡ Some refusal) }
    ensures free { IfOk result (λ _.
        first_that_holds (reasons cluster.now.config (state_in cluster.now)
        (event.Heartbeat name.now)) ≡ None) }
    ensures refused_too { IfErr result (λ refusal.
        first_that_holds (reasons cluster.now.config (state_in cluster.now)
        (event.Propose name.now)) ≡ Some refusal) }
    ensures free_too { IfOk result (λ _.
        first_that_holds (reasons cluster.now.config (state_in cluster.now)
        (event.Propose name.now)) ≡ None) }
    ensures node { IfOk result (CanPlaceOn cluster.now name.now) }
{
    let Some(node) = node_named(cluster, name) else {
        return Err(Refusal::NoSuchNode);
    };
    let inventory = cluster.inventory();
    if inventory.is_spent(inventory.node(node).partition) {
        return Err(Refusal::ClockSpent);
    }
    Ok(node)
}

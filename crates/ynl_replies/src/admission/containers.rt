//! Containers by their ids, and what ends one.

ghost use Rattle.std.specs.Prelude.{◌≡◌, slice_get, option_map, None, Some, IfErr, IfNone, IfOk, IfSome};
ghost use Rattle.std.specs.Option.{option_and_then};
ghost use Rattle.ynl_resource.specs.Refusals.{first_that_holds};
ghost use Rattle.ynl_resource.specs.declared.names.Name.{Name as NodeName};
ghost use Rattle.ynl_model.specs.Events.{container_at, container_for, reasons};
ghost use Rattle.ynl_model.specs.declared.events.Event.TheVariants as event;
ghost use Rattle.ynl_slots.specs.Slots.{IsLive};
ghost use Rattle.ynl_inventory.specs.Meaning.{container_with};
ghost use Rattle.ynl_inventory.specs.Parts.{held_at};
ghost use Rattle.ynl_inventory.specs.Sound.{HasPartition};
ghost use Rattle.ynl_cluster.specs.Cluster.{state_in};
ghost use Rattle.ynl_replies.specs.admission.Named.{IsNodeNamed, is_tenants};
ghost use Rattle.ynl_replies.specs.admission.Admitted.{CanExit, CanRelease, IsTenants};

use crate::admission::applications::tenant_of;
use crate::admission::nodes::node_named;
use crate::admission::partitions::{is_labelled, partition_of};
use ynl_cluster::Cluster;
use ynl_resource::{Id, Name, Refusal};
use ynl_tables::containers::{Container, Role};

/// A container by its number in its partition.
#[derive(Clone, Copy)]
pub struct Held {
    pub partition: u8,
    pub number: u32,
}

/// A container and its number.
#[derive(Clone, Copy)]
struct Found {
    number: u32,
    container: Container,
}

/// The container of a clock in a partition, if there is one.
fn clocked(cluster: &Cluster, p: u8, clock: u64) -> Option<Found>
    requires { HasPartition cluster.now.rows p }
    ensures held { IfSome result (λ found.
        held_at cluster.now.rows p found.number ≡ Some found.container) }
    ensures value { option_map (λ found. found.container) result
        ≡ option_and_then (container_with clock) (slice_get cluster.now.rows.partitions p) }
{
    let inventory = cluster.inventory();
    match inventory.find_container(p, clock) {
        Some(number) => Some(Found {
            number,
            container: inventory.container(p, number),
        }),
        None => None,
    }
}

/// The container of an id on a node, if there is one.
fn container_on(cluster: &Cluster, node: u32, id: &Id) -> Option<Held>
    requires { IsLive node cluster.now.rows.nodes }
    ensures some { (name : NodeName) → IsNodeNamed cluster.now name node
        → IfSome result (CanExit cluster.now name id.now) }
    ensures none { (name : NodeName) → IsNodeNamed cluster.now name node
        → IfNone result (container_at (state_in cluster.now) name id.now ≡ None) }
{
    let partition = cluster.inventory().node(node).partition;
    if !is_labelled(cluster.inventory(), partition, &id.label) {
        return None;
    }
    let Some(found) = clocked(cluster, partition, id.clock) else {
        return None;
    };
    if found.container.node != node {
        return None;
    }
    Some(Held {
        partition,
        number: found.number,
    })
}

/// The container that ended by itself, or the first reason for which none did.
#[tactic(auto, unfolding(ynl_model::specs::Events::reasons))]
pub fn exited(cluster: &Cluster, name: &Name, id: &Id) -> Result<Held, Refusal>
    ensures refused { IfErr result (λ refusal.
        first_that_holds (reasons cluster.now.config (state_in cluster.now)
        (event.Exited name.now id.now)) ≡ Some refusal) }
    ensures free { IfOk result (λ _.
        first_that_holds (reasons cluster.now.config (state_in cluster.now)
        (event.Exited name.now id.now)) ≡ None) }
    ensures ends { IfOk result (CanExit cluster.now name.now id.now) }
{
    let Some(node) = node_named(cluster, name) else {
        return Err(Refusal::NoSuchNode);
    };
    match container_on(cluster, node, id) {
        Some(held) => Ok(held),
        None => Err(Refusal::NoSuchContainer),
    }
}

/// Whether an application is of a tenant.
fn is_of(cluster: &Cluster, app: u32, tenant: u32) -> bool
    requires { IsLive app cluster.now.rows.apps }
    ensures { result ≡ is_tenants cluster.now.rows tenant app }
{
    cluster.inventory().app(app).tenant == tenant
}

/// The container of an id and a tenant, if there is one.
fn container_of(cluster: &Cluster, tenant: &Name, id: &Id) -> Option<Held>
    ensures some { IfSome result (IsTenants cluster.now tenant.now id.now) }
    ensures none { IfNone result (container_for (state_in cluster.now) tenant.now id.now ≡ None) }
{
    let inventory = cluster.inventory();
    let Some(partition) = partition_of(cluster, &id.label) else {
        return None;
    };
    let Some(tenant) = tenant_of(inventory, tenant) else {
        return None;
    };
    let Some(found) = clocked(cluster, partition, id.clock) else {
        return None;
    };
    if !is_of(cluster, found.container.app, tenant) {
        return None;
    }
    Some(Held {
        partition,
        number: found.number,
    })
}

/// The container that a tenant gives back, or the first reason for which it gives none.
#[tactic(auto, unfolding(ynl_model::specs::Events::reasons))]
pub fn release(cluster: &Cluster, tenant: &Name, id: &Id) -> Result<Held, Refusal>
    ensures refused { IfErr result (λ refusal.
        first_that_holds (reasons cluster.now.config (state_in cluster.now)
        (event.Release tenant.now id.now)) ≡ Some refusal) }
    ensures free { IfOk result (λ _.
        first_that_holds (reasons cluster.now.config (state_in cluster.now)
        (event.Release tenant.now id.now)) ≡ None) }
    ensures ends { IfOk result (CanRelease cluster.now tenant.now id.now) }
{
    let Some(held) = container_of(cluster, tenant, id) else {
        return Err(Refusal::NoSuchContainer);
    };
    match cluster
        .inventory()
        .container(held.partition, held.number)
        .role
    {
        Role::Master => Err(Refusal::IsMaster),
        Role::Ask { .. } => Ok(held),
    }
}

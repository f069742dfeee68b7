//! Changes of a cluster that keep what is noted right.

ghost use Rattle.std.specs.Prelude.{◌≡◌, ℕ, IfOk, IfSome, IsOk, IsSome, OnErr, OnOk, Some, nat_eq, slice_index_or, [], true};
ghost use Rattle.std.specs.Map.{lookup};
ghost use Rattle.ynl_model.specs.Applications.{in_leaf, new_app, set_ask, submitted, with_app};
ghost use Rattle.ynl_model.specs.Changes.{app_finishes, container_of, end, place};
ghost use Rattle.ynl_laws.specs.Working.{IsWorking};
ghost use Rattle.ynl_slots.specs.Slots.{IsLive, IsUnused};
ghost use Rattle.ynl_tables.specs.declared.apps.app.Tickets.{Tickets as TicketPair};
ghost use Rattle.ynl_inventory.specs.Rows.{AppRow};
ghost use Rattle.ynl_inventory.specs.Changes.{partition_of_node, with_app_gone, with_asked, with_ended, with_placed, with_submitted, with_tickets};
ghost use Rattle.ynl_inventory.specs.Meaning.{app_name, app_of, ask_of, item_of, node_of, placed_of};
ghost use Rattle.ynl_inventory.specs.Parts.{CanPlace, LeavesRoom, held_at};
ghost use Rattle.ynl_inventory.specs.Sound.{CanAsk, CanSubmit, HasPartition, IsFor, IsLeaf, IsPlaceable, IsSound};
ghost use Rattle.ynl_cluster.specs.Cluster.{held_in, label_of, path_of, state_in, IsCell};
ghost use Rattle.ynl_search.specs.notes.Upkeep.{AreGuestsLeft, AreLeft, StayRight, changed_on, is_on};

use crate::notes::leaves::{least_asked, least_in};
use crate::notes::shut::Shut;
use std::alloc::AllocError;
use ynl_cluster::Cluster;
use ynl_inventory::{NewSubmission, Placement};
use ynl_model::Placed;
use ynl_resource::Name;
use ynl_tables::apps::Ask;
use ynl_tables::containers::{Container, Role};

/// The partition on which requests change with a container there, if it is one alone.
fn changed_on(role: Role, p: u8) -> Option<u8>
    ensures { result ≡ changed_on role p }
{
    match role {
        Role::Master => None,
        Role::Ask { .. } => Some(p),
    }
}

/// What is noted of the queues on the way to a leaf changes with what waits in the leaf on a partition.
fn change_way_on(cluster: &Cluster, shut: &mut Shut, leaf: usize, p: u8)
    requires cell { IsCell cluster.now p leaf }
    requires leaf { IsLeaf cluster.now.rows leaf }
    ensures left { AreLeft cluster.now leaf (λ r. nat_eq r p) shut.old.own shut.new.own }
    ensures guests { shut.new.guests ≡ shut.old.guests }
{
    let low = least_in(cluster, p, leaf);
    shut.change(p, cluster.inventory().layout().line(leaf), &low);
}

/// It does so with what waits in the leaf on each partition.
fn change_way_on_all(cluster: &Cluster, shut: &mut Shut, leaf: usize)
    requires { IsLeaf cluster.now.rows leaf }
    ensures left { AreLeft cluster.now leaf (λ r. true) shut.old.own shut.new.own }
    ensures guests { shut.new.guests ≡ shut.old.guests }
{
    for p in 0..cluster.inventory().partition_count() {
        change_way_on(cluster, shut, leaf, p as u8);
    }
}

/// What is noted of the queues on the way to a leaf, and of their guests, changes with what waits in the leaf, on one
/// partition or on all.
fn change_way(cluster: &Cluster, shut: &mut Shut, leaf: u32, only: Option<u8>)
    requires leaf { IsLeaf cluster.now.rows leaf }
    requires only { IfSome only (HasPartition cluster.now.rows) }
    ensures left { AreLeft cluster.now leaf (is_on only) shut.old.own shut.new.own }
    ensures guests { AreGuestsLeft cluster.now leaf shut.old.guests shut.new.guests }
    ensures sound { IsSound cluster.now.rows }
    ensures configured { IsFor cluster.now.config cluster.now.rows }
{
    let inventory = cluster.inventory();
    let leaf = leaf as usize;
    match only {
        Some(p) => change_way_on(cluster, shut, leaf, p),
        None => change_way_on_all(cluster, shut, leaf),
    }
    let low = least_asked(cluster, leaf);
    shut.change_guests(inventory.layout().line(leaf), &low);
}

/// A container is placed on a node, as `Cluster::place` says, and told as the model has it. It takes
/// no memory.
pub fn place(cluster: &mut Cluster, shut: &mut Shut, placed: &Placement) -> Placed
    requires can { CanPlace (held_in cluster.old) placed.now }
    requires working { IsWorking cluster.old.config (state_in cluster.old) }
    ensures rows { (number : ℕ) × (cluster.new ≡ record cluster.old {
      rows = with_placed number
          placed.now.node placed.now.app placed.now.role placed.now.size cluster.old.rows;
      rooms = cluster.new.rooms;
    }) }
    ensures rooms { LeavesRoom (partition_of_node cluster.old.rows.nodes placed.now.node) 1
        cluster.old.rooms cluster.new.rooms }
    ensures state { (can : IsPlaceable cluster.old.rows placed.now.node placed.now.app
        placed.now.role) → state_in cluster.new ≡ place cluster.old.config
        (node_of cluster.old.rows.partitions can.node_row)
        (item_of cluster.old.rows can.app_row placed.now.role placed.now.size)
        (state_in cluster.old) }
    ensures told { (can : IsPlaceable cluster.old.rows placed.now.node placed.now.app
        placed.now.role) → result ≡ container_of cluster.old.config (state_in cluster.old)
        (node_of cluster.old.rows.partitions can.node_row)
        (item_of cluster.old.rows can.app_row placed.now.role placed.now.size) }
    ensures shut { StayRight cluster.old cluster.new shut.old shut.new }
{
    let inventory = cluster.inventory();
    let app = inventory.app(placed.app);
    let leaf = app.leaf;
    let node = inventory.node(placed.node);
    let p = node.partition;
    let number = cluster.place(placed);
    let told = cluster.inventory().placed(p, number);
    change_way(cluster, shut, leaf, changed_on(placed.role, p));
    told
}

/// The container under a number in a partition ends, as `Cluster::end` says. It takes no memory.
pub fn end(cluster: &mut Cluster, shut: &mut Shut, p: u8, number: u32) -> Container
    requires held { IsSome (held_at cluster.old.rows p number) }
    requires working { IsWorking cluster.old.config (state_in cluster.old) }
    ensures value { held_at cluster.old.rows p number ≡ Some result }
    ensures rows { cluster.new ≡ record cluster.old {
      rows = with_ended p number result.node cluster.old.rows;
      rooms = cluster.new.rooms;
    } }
    ensures rooms { LeavesRoom p 0 cluster.old.rooms cluster.new.rooms }
    ensures state { state_in cluster.new ≡ end cluster.old.config (state_in cluster.old)
        (placed_of cluster.old.rows (label_of cluster.old p) result) }
    ensures shut { StayRight cluster.old cluster.new shut.old shut.new }
{
    let inventory = cluster.inventory();
    let held = inventory.container(p, number);
    let app = inventory.app(held.app);
    let leaf = app.leaf;
    let ended = cluster.end(p, number);
    // Opens the rows, whose partitions are the configured ones.
    let _ = cluster.inventory();
    change_way(cluster, shut, leaf, changed_on(ended.role, p));
    ended
}

/// An application is submitted, as `Cluster::submit` says, and fails where that does.
pub fn submit(
    cluster: &mut Cluster,
    shut: &mut Shut,
    name: &Name,
    new: &NewSubmission,
) -> Result<u32, AllocError>
    requires can { CanSubmit cluster.old.rows name.now new.now }
    requires working { IsWorking cluster.old.config (state_in cluster.old) }
    ensures rows { IfOk result (λ app. (tickets : TicketPair) × (cluster.new
        ≡ record cluster.old {
          rows = with_tickets app tickets (with_submitted app name.now new.now.tenant
              new.now.leaf new.now.user new.now.home new.now.master_size cluster.old.rows);
        })) }
    ensures unused { IfOk result (λ app. IsUnused app cluster.old.rows.apps) }
    ensures state { OnOk result (state_in cluster.new ≡ record (state_in cluster.old) {
      leaves = in_leaf (path_of cluster.old new.now.leaf)
          (submitted (new_app (path_of cluster.old new.now.leaf) name.now
          (slice_index_or cluster.old.rows.users new.now.user [])
          (label_of cluster.old new.now.home) new.now.master_size))
          (state_in cluster.old).leaves;
    }) }
    ensures err { OnErr result (cluster.new ≡ cluster.old) }
    ensures shut { StayRight cluster.old cluster.new shut.old shut.new }
{
    // Opens the rows, which are sound.
    let _ = cluster.inventory();
    let app = cluster.submit(name, new)?;
    change_way(cluster, shut, new.leaf, None);
    Ok(app)
}

/// An application asks, as `Cluster::ask` says, and fails where that does.
pub fn ask(cluster: &mut Cluster, shut: &mut Shut, app: u32, ask: Ask) -> Result<(), AllocError>
    requires can { CanAsk cluster.old.rows app ask }
    requires working { IsWorking cluster.old.config (state_in cluster.old) }
    ensures ok { OnOk result (cluster.new ≡ record cluster.old {
      rows = with_asked app ask cluster.old.rows;
    }) }
    ensures state { OnOk result ((row : AppRow)
        → lookup (nat_eq app) cluster.old.rows.apps ≡ Some row
        → state_in cluster.new ≡ record (state_in cluster.old) {
          leaves = in_leaf (path_of cluster.old row.leaf)
              (with_app (app_name cluster.old.rows.tenants row.tenant row.turn)
              (set_ask (ask_of cluster.old.rows.partitions ask)))
              (state_in cluster.old).leaves;
        }) }
    ensures err { OnErr result (cluster.new ≡ cluster.old) }
    ensures no_count { ask.count ≡ 0 → IsOk result }
    ensures shut { StayRight cluster.old cluster.new shut.old shut.new }
{
    let inventory = cluster.inventory();
    let row = inventory.app(app);
    let leaf = row.leaf;
    let p = ask.partition;
    cluster.ask(app, ask)?;
    change_way(cluster, shut, leaf, Some(p));
    Ok(())
}

/// An application finishes with its containers, as `Cluster::finish` says. It takes no memory.
pub fn finish(cluster: &mut Cluster, shut: &mut Shut, app: u32)
    requires live { IsLive app cluster.old.rows.apps }
    requires working { IsWorking cluster.old.config (state_in cluster.old) }
    ensures rows { IfSome (lookup (nat_eq app) cluster.old.rows.apps) (λ row. cluster.new
        ≡ record cluster.old {
          rows = record (with_app_gone app row.tenant row.turn cluster.old.rows) {
            partitions = cluster.new.rows.partitions;
            nodes = cluster.new.rows.nodes;
          };
          rooms = cluster.new.rooms;
        }) }
    ensures state { (row : AppRow) → lookup (nat_eq app) cluster.old.rows.apps ≡ Some row
        → state_in cluster.new ≡ app_finishes cluster.old.config
        (app_of cluster.old.rows (app, row)) (state_in cluster.old) }
    ensures shut { StayRight cluster.old cluster.new shut.old shut.new }
{
    let inventory = cluster.inventory();
    let row = inventory.app(app);
    let leaf = row.leaf;
    cluster.finish(app);
    change_way(cluster, shut, leaf, None);
}

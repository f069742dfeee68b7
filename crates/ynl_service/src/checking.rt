//! Why a proposal is not committed, or else what it would place.

ghost use Rattle.std.specs.Prelude.{◌≡◌, false, nat_eq, true, IfErr, IfNone, IfOk, None, Some};
ghost use Rattle.std.specs.Map.{lookup};
ghost use Rattle.std.specs.Option.{option_map_or};
ghost use Rattle.ynl_resource.specs.Amounts.{fits_in};
ghost use Rattle.ynl_resource.specs.Refusals.{first_that_holds};
ghost use Rattle.ynl_model.specs.Check.{commit_reasons, same_size};
ghost use Rattle.ynl_slots.specs.Slots.{IsLive};
ghost use Rattle.ynl_tables.specs.apps.Asks.{find_ask};
ghost use Rattle.ynl_inventory.specs.Rows.{AppRow as Row};
ghost use Rattle.ynl_inventory.specs.Apps.{runs_at};
ghost use Rattle.ynl_inventory.specs.Meaning.{item_of, node_of};
ghost use Rattle.ynl_inventory.specs.Parts.{app_row, free_of};
ghost use Rattle.ynl_inventory.specs.Sound.{IsPlaceable};
ghost use Rattle.ynl_cluster.specs.Cluster.{state_in};
ghost use Rattle.ynl_search.specs.notes.Shut.{AreShut};
ghost use Rattle.ynl_service.specs.Checking.{is_wanted_at, IsProposed, request_reasons};

use crate::access::{accessible, comes_as_guest};
use crate::limits::limit_refusal;
use ynl_cluster::Cluster;
use ynl_inventory::Placement;
use ynl_model::Proposal;
use ynl_replies::admission::{app_named, placing};
use ynl_resource::{Refusal, Size};
use ynl_search::notes::Shut;
use ynl_search::some_own;
use ynl_tables::apps::{AppRow, Asks};
use ynl_tables::containers::Role;

fn is_same_size(a: &Size, b: &Size) -> bool
    ensures { result ≡ same_size a.now b.now }
{
    let here = a.amount();
    let there = b.amount();
    here.memory == there.memory && here.vcores == there.vcores
}

/// Whether there is an ask of a partition and a priority, and it is for this size.
fn asks_for(asks: &Asks, partition: u8, priority: u32, size: &Size) -> bool
    ensures { result ≡ option_map_or (λ ask. same_size ask.size size.now)
        (find_ask partition priority asks.now) false }
{
    match asks.find(partition, priority) {
        Some(ask) => is_same_size(&ask.size, size),
        None => false,
    }
}

/// Whether an application wants just this on a partition: while it waits a master of this size at
/// home, and while it runs what it asks for.
fn is_wanted(row: &AppRow, runs: bool, p: u8, placed: &Placement) -> bool
    ensures { result ≡ is_wanted_at runs p (app_row row.now) placed.now.role placed.now.size }
{
    match placed.role {
        Role::Master => !runs && row.home == p && is_same_size(&row.master_size, &placed.size),
        Role::Ask {
            partition,
            priority,
        } => runs && asks_for(&row.asks, partition, priority, &placed.size),
    }
}

/// Whether a live application wants just this on a partition.
fn wants(cluster: &Cluster, p: u8, placed: &Placement) -> bool
    requires live { IsLive placed.now.app cluster.now.rows.apps }
    ensures { (row : Row) → lookup (nat_eq placed.now.app) cluster.now.rows.apps ≡ Some row
        → result ≡ is_wanted_at (runs_at cluster.now.rows placed.now.app row) p row
        placed.now.role placed.now.size }
{
    let inventory = cluster.inventory();
    let row = inventory.app(placed.app);
    let runs = inventory.runs(placed.app);
    is_wanted(row, runs, p, placed)
}

/// The first reason that lies in what the node and the partition have left for a request. A guest
/// comes only where nothing is eligible, and no limit counts for it.
fn request_refusal(cluster: &Cluster, shut: &mut Shut, placed: &Placement) -> Option<Refusal>
    requires placeable { IsPlaceable cluster.now.rows
        placed.now.node placed.now.app placed.now.role }
    requires shut { AreShut cluster.now shut.old }
    ensures reasons { (can : IsPlaceable cluster.now.rows
        placed.now.node placed.now.app placed.now.role)
        → result ≡ first_that_holds (request_reasons cluster.now.config (state_in cluster.now)
        (node_of cluster.now.rows.partitions can.node_row)
        (item_of cluster.now.rows can.app_row placed.now.role placed.now.size)) }
    ensures fits { IfNone result (fits_in placed.now.size (free_of cluster.now.rows placed.now.node)
        ≡ true) }
    ensures shut { AreShut cluster.now shut.new }
{
    let inventory = cluster.inventory();
    let room = inventory.free(placed.node);
    if !placed.size.amount().fits_in(room) {
        return Some(Refusal::NoRoom);
    }
    let p = inventory.node(placed.node).partition;
    if !comes_as_guest(cluster, p, placed.role) {
        return limit_refusal(cluster, p, room, placed);
    }
    if some_own(cluster, shut, placed.node) {
        return Some(Refusal::PartitionBusy);
    }
    None
}

/// What a proposal would place, or the first reason for which it is not committed.
pub fn check(cluster: &Cluster, shut: &mut Shut, proposal: &Proposal) -> Result<Placement, Refusal>
    requires { AreShut cluster.now shut.old }
    ensures refused { IfErr result (λ refusal.
        first_that_holds (commit_reasons cluster.now.config (state_in cluster.now) proposal.now)
        ≡ Some refusal) }
    ensures free { IfOk result (λ _.
        first_that_holds (commit_reasons cluster.now.config (state_in cluster.now) proposal.now)
        ≡ None) }
    ensures placement { IfOk result (IsProposed cluster.now proposal.now) }
    ensures shut { AreShut cluster.now shut.new }
{
    let node = placing(cluster, &proposal.node)?;
    let inventory = cluster.inventory();
    let row = inventory.node(node);
    if row.stamp != proposal.stamp {
        return Err(Refusal::Stale);
    }
    let Some(role) = accessible(cluster, row.partition, &proposal.tenant, &proposal.what) else {
        return Err(Refusal::NotAccessible);
    };
    let Some(app) = app_named(cluster, &proposal.tenant, &proposal.app) else {
        return Err(Refusal::NoSuchApplication);
    };
    let placement = Placement {
        node,
        app,
        role,
        size: proposal.size,
    };
    if !wants(cluster, row.partition, &placement) {
        return Err(Refusal::NoSuchAsk);
    }
    match request_refusal(cluster, shut, &placement) {
        Some(refusal) => Err(refusal),
        None => Ok(placement),
    }
}

//! A sight is copied from a cluster.

ghost use Rattle.std.specs.Prelude.{◌≡◌, ◌<◌, IfOk, OnOk, Some, map, nat_eq};
ghost use Rattle.std.specs.Map.{lookup};
ghost use Rattle.ynl_model.specs.Service.{asks_for, masters_for};
ghost use Rattle.ynl_slots.specs.Slots.{IsLive};
ghost use Rattle.ynl_inventory.specs.Rows.{NodeRow};
ghost use Rattle.ynl_inventory.specs.Meaning.{node_of};
ghost use Rattle.ynl_inventory.specs.Sound.{HasPartition};
ghost use Rattle.ynl_cluster.specs.Cluster.{label_of, state_in, IsCell};
ghost use Rattle.ynl_sights.specs.Copying.{AddsLeaf, AreLeavesOn, IsAt};
ghost use Rattle.ynl_sights.specs.Lists.{AreListsOf};
ghost use Rattle.ynl_sights.specs.Rows.{asks_in, guest_bids_in, masters_in, AreGuests, AreLeaves};
ghost use Rattle.ynl_sights.specs.Sights.{guests_in, offer_of, sighted};

use crate::gathering::none_waits;
use crate::lists::LeafLists;
use crate::rows::{LeafSight, LeafSights};
use crate::sights::Sight;
use crate::ways::{add_queues, limits_of, margin_of_root, start};
use std::alloc::{AllocError, Global};
use ynl_cluster::Cluster;
use ynl_lanes::lane::Kind;
use ynl_model::Node;
use ynl_search::Place;

/// Adds a queue with what is wanted of it on a partition. One of which nothing is wanted, as of any
/// that is no leaf, costs a look at its lane.
fn add_leaf(
    cluster: &Cluster,
    p: u8,
    root: &Place,
    leaf: usize,
    lists: &mut LeafLists,
    out: &mut LeafSights,
) -> Result<(), AllocError>
    requires there { IsCell cluster.now p leaf }
    requires below_root { 0 < leaf }
    requires root { IsAt cluster.now p 0 root.now }
    requires leaves { AreLeavesOn cluster.now p out.old }
    requires lists { AreListsOf cluster.now.rows lists.old }
    ensures leaf { OnOk result (AddsLeaf cluster.now p leaf out.old out.new) }
    ensures lists { AreListsOf cluster.now.rows lists.new }
{
    // Opens the inventory, whose rows are sound.
    let _ = cluster.inventory();
    if none_waits(cluster, p, leaf, Kind::Master) && none_waits(cluster, p, leaf, Kind::Ask) {
        return Ok(());
    }
    let mut place = *root;
    let start = out.queues.len();
    add_queues(cluster, p, leaf, &mut place, &mut out.queues)?;
    let list = lists.list(cluster, p, leaf)?;
    out.leaves.push(LeafSight {
        start,
        end: out.queues.len(),
        limits: limits_of(cluster, p, leaf, &place),
        list,
    })?;
    Ok(())
}

/// What is wanted on a partition, leaf by leaf.
fn leaf_sights(
    alloc: Global,
    cluster: &Cluster,
    p: u8,
    lists: &mut LeafLists,
) -> Result<LeafSights, AllocError>
    requires partition { HasPartition cluster.now.rows p }
    requires lists { AreListsOf cluster.now.rows lists.old }
    ensures leaves { IfOk result AreLeaves }
    ensures masters { IfOk result (λ leaves. masters_in leaves
        ≡ map (offer_of cluster.now.config (state_in cluster.now) (label_of cluster.now p))
        (masters_for (state_in cluster.now) (label_of cluster.now p))) }
    ensures asks { IfOk result (λ leaves. asks_in (label_of cluster.now p) leaves
        ≡ map (offer_of cluster.now.config (state_in cluster.now) (label_of cluster.now p))
        (asks_for (state_in cluster.now) (label_of cluster.now p))) }
    ensures lists { AreListsOf cluster.now.rows lists.new }
{
    let queues = cluster.inventory().layout().len();
    let root = start(cluster, p);
    // With room for most of what comes: ways of two queues.
    let mut leaves = LeafSights {
        root: margin_of_root(cluster, p),
        queues: Vec::with_capacity(alloc, queues.saturating_mul(2))?,
        leaves: Vec::with_capacity(alloc, queues)?,
    };
    for queue in 1..queues {
        add_leaf(cluster, p, &root, queue, lists, &mut leaves)?;
    }
    Ok(leaves)
}

/// What a partition could take as guests, leaf by leaf, if it takes any: what is asked for on DEFAULT.
fn guest_sights(
    alloc: Global,
    cluster: &Cluster,
    p: u8,
    lists: &mut LeafLists,
) -> Result<Option<LeafSights>, AllocError>
    requires partition { HasPartition cluster.now.rows p }
    requires lists { AreListsOf cluster.now.rows lists.old }
    ensures guests { IfOk result AreGuests }
    ensures bids { IfOk result (λ guests. guest_bids_in guests
        ≡ guests_in cluster.now.config (state_in cluster.now) (label_of cluster.now p)) }
    ensures lists { AreListsOf cluster.now.rows lists.new }
{
    if cluster.inventory().takes_guests(p) {
        Ok(Some(leaf_sights(alloc, cluster, 0, lists)?))
    } else {
        Ok(None)
    }
}

/// A node, as the model has it.
fn node_at(cluster: &Cluster, node: u32) -> Node
    requires { IsLive node cluster.now.rows.nodes }
    ensures { (row : NodeRow) → lookup (nat_eq node) cluster.now.rows.nodes ≡ Some row
        → result ≡ node_of cluster.now.rows.partitions row }
{
    let inventory = cluster.inventory();
    let row = inventory.node(node);
    Node {
        name: row.name,
        label: *inventory.label(row.partition),
        size: row.size,
        stamp: row.stamp,
    }
}

impl Sight {
    /// Copies what a choice on a node reads of a cluster. What is wanted of a leaf is shared with the list that is kept of
    /// it, and is listed where none is. `Err` only if memory is refused; nothing is kept of the copy then.
    pub fn copy(
        alloc: Global,
        cluster: &Cluster,
        lists: &mut LeafLists,
        node: u32,
    ) -> Result<Sight, AllocError>
        requires live { IsLive node cluster.now.rows.nodes }
        requires lists { AreListsOf cluster.now.rows lists.old }
        ensures sight { IfOk result (λ sight. (row : NodeRow)
            → lookup (nat_eq node) cluster.now.rows.nodes ≡ Some row
            → sight ≡ sighted cluster.now.config (state_in cluster.now)
            (node_of cluster.now.rows.partitions row)) }
        ensures lists { AreListsOf cluster.now.rows lists.new }
    {
        let inventory = cluster.inventory();
        let p = inventory.node(node).partition;
        let leaves = leaf_sights(alloc, cluster, p, lists)?;
        let guests = guest_sights(alloc, cluster, p, lists)?;
        Ok(Sight {
            node: node_at(cluster, node),
            free: inventory.free(node),
            leaves,
            guests,
        })
    }
}

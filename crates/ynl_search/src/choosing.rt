//! The choice of what is placed next on a node.

ghost use Rattle.std.specs.Prelude.{◌≡◌, IfSome, nat_eq, Some};
ghost use Rattle.std.specs.Map.{lookup};
ghost use Rattle.ynl_model.specs.Service.{some_eligible};
ghost use Rattle.ynl_slots.specs.Slots.{IsLive};
ghost use Rattle.ynl_inventory.specs.Rows.{NodeRow};
ghost use Rattle.ynl_inventory.specs.Meaning.{node_of};
ghost use Rattle.ynl_inventory.specs.Sound.{IsSound};
ghost use Rattle.ynl_cluster.specs.Cluster.{state_in};
ghost use Rattle.ynl_search.specs.notes.Shut.{AreShut};
ghost use Rattle.ynl_search.specs.Choosing.{IsChosen, IsFirstGuestOn, IsFirstOwnOn, MayBePlaced};

use crate::descent::descend;
use crate::found::Found;
use crate::guest_tree::GuestTree;
use crate::notes::Shut;
use crate::open_child::is_passed;
use crate::own_tree::OwnTree;
use crate::queues::{reach, root_at};
use ynl_cluster::Cluster;

/// The first of all requests that are eligible on a node, if there is one. Queues below which there
/// is none are noted.
fn first_own_on(cluster: &Cluster, shut: &mut Shut, node: u32) -> Option<Found>
    requires node { IsLive node cluster.now.rows.nodes }
    requires shut { AreShut cluster.now shut.old }
    ensures shut { AreShut cluster.now shut.new }
    ensures first { IsFirstOwnOn cluster.now node result }
    ensures sound { IsSound cluster.now.rows }
{
    let inventory = cluster.inventory();
    let partition = inventory.node(node).partition;
    let room = inventory.free(node);
    if is_passed(&shut.noted(partition, 0), &room) {
        return None;
    }
    let tree = OwnTree {
        cluster,
        node,
        partition,
        room,
    };
    let place = root_at(cluster, partition, room);
    let root = reach(cluster, place);
    descend(&tree, shut, &root, inventory.layout().len())
}

/// The first of all asks for DEFAULT for which a node has room, if there is one. Queues from below which none comes are
/// noted.
fn first_guest_on(cluster: &Cluster, shut: &mut Shut, node: u32) -> Option<Found>
    requires node { IsLive node cluster.now.rows.nodes }
    requires shut { AreShut cluster.now shut.old }
    ensures shut { AreShut cluster.now shut.new }
    ensures first { IsFirstGuestOn cluster.now node result }
{
    let inventory = cluster.inventory();
    let room = inventory.free(node);
    if !shut.least_guest(0).fits_in(room) {
        return None;
    }
    let tree = GuestTree {
        cluster,
        node,
        room,
    };
    let place = root_at(cluster, 0, room);
    let root = reach(cluster, place);
    descend(&tree, shut, &root, inventory.layout().len())
}

/// What is placed next on a node: the first of the requests that are eligible there, or else the
/// first guest, if the node's partition takes guests. It is there to be placed, as long as the
/// clock of the partition rises.
pub fn choose(cluster: &Cluster, shut: &mut Shut, node: u32) -> Option<Found>
    requires node { IsLive node cluster.now.rows.nodes }
    requires shut { AreShut cluster.now shut.old }
    ensures shut { AreShut cluster.now shut.new }
    ensures choice { IsChosen cluster.now node result }
    ensures placed { IfSome result (MayBePlaced cluster.now node) }
{
    let own = first_own_on(cluster, shut, node);
    if own.is_some() {
        return own;
    }
    let inventory = cluster.inventory();
    let partition = inventory.node(node).partition;
    if !inventory.takes_guests(partition) {
        return None;
    }
    first_guest_on(cluster, shut, node)
}

/// Whether any request is eligible on a node.
pub fn some_own(cluster: &Cluster, shut: &mut Shut, node: u32) -> bool
    requires node { IsLive node cluster.now.rows.nodes }
    requires shut { AreShut cluster.now shut.old }
    ensures shut { AreShut cluster.now shut.new }
    ensures some { (row : NodeRow) → lookup (nat_eq node) cluster.now.rows.nodes ≡ Some row
        → result ≡ some_eligible cluster.now.config (state_in cluster.now)
        (node_of cluster.now.rows.partitions row) }
{
    first_own_on(cluster, shut, node).is_some()
}

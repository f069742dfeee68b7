//! What a search reads of the queues of a cluster.

ghost use Rattle.std.specs.Prelude.{◌≡◌, ◌<◌, ◌≤◌, IfNone, IsTrue};
ghost use Rattle.ynl_model.specs.declared.nodes.Node.{Node};
ghost use Rattle.ynl_model.specs.Cluster.{free};
ghost use Rattle.ynl_model.specs.Limits.{users};
ghost use Rattle.ynl_resource.specs.declared.amounts.Resource.{Resource as Amount};
ghost use Rattle.ynl_inventory.specs.Sound.{IsLeaf};
ghost use Rattle.ynl_cluster.specs.Cluster.{label_of, path_of, state_in, IsCell as IsThere};
ghost use Rattle.ynl_search.specs.Leaves.{AreLimits, AreTests};
ghost use Rattle.ynl_search.specs.Places.{IsCell, IsPlace, IsSmallPlace, any_room};
ghost use Rattle.ynl_search.specs.Scenes.{HasAmountsIn, IsFirstGuest, IsFirstOwn, IsPlaceOf};
ghost use Rattle.ynl_search.specs.Shut.{HasNoneIn, IsShutIn};

use crate::found::Found;
use crate::guests::first_guest;
use crate::leaf::LeafTests;
use crate::notes::lane_of;
use crate::own::first_own;
use crate::place::{Cell, Place};
use ynl_cluster::Cluster;
use ynl_resource::Resource;

/// A queue below root on a partition.
pub fn cell_of(cluster: &Cluster, p: u8, queue: usize) -> Cell
    requires below_root { 0 < queue }
    requires there { IsThere cluster.now p queue }
    ensures { IsCell cluster.now.config (state_in cluster.now)
        (label_of cluster.now p) (path_of cluster.now queue) result }
{
    Cell {
        capacity: cluster.capacity_share(p, queue),
        maximum: cluster.maximum_share(p, queue),
        used: cluster.used(p, queue).used,
    }
}

/// How many users share a queue's part of a partition, and 1 where there is none. Only a leaf has
/// any.
fn users_of(cluster: &Cluster, p: u8, queue: usize) -> u64
    requires { IsThere cluster.now p queue }
    ensures value { result ≡ users (state_in cluster.now)
        (path_of cluster.now queue) (label_of cluster.now p) }
    ensures some { 1 ≤ result }
{
    let count = cluster.lane(p, queue).users() as u64;
    1u64.max(count)
}

/// What the requests of a leaf on a partition are tested against where it was reached. It says the
/// same of the limits of a queue that is no leaf, which has no requests.
pub fn tests_of(cluster: &Cluster, p: u8, place: &Place) -> LeafTests
    requires small { IsSmallPlace place.now }
    requires below_root { 0 < place.now.queue }
    requires there { IsThere cluster.now p place.now.queue }
    ensures tests { (free : Amount) → IsPlace cluster.now.config (state_in cluster.now)
        (label_of cluster.now p) free (path_of cluster.now place.now.queue) place.now
        → AreTests cluster.now.config (state_in cluster.now)
        (label_of cluster.now p) free (path_of cluster.now place.now.queue) result }
    ensures headroom { result.headroom ≡ place.now.headroom }
    ensures limits { HasAmountsIn cluster.now p place.now → AreLimits cluster.now.config
        (state_in cluster.now) (label_of cluster.now p)
        (path_of cluster.now place.now.queue) result }
{
    let kept = cluster.used(p, place.queue);
    let users = users_of(cluster, p, place.queue);
    LeafTests::new(place, cluster.leaf_settings(place.queue), kept, users)
}

/// The first request of a leaf that may be placed on a node of a partition, where the leaf was
/// reached with what is free there.
pub fn first_in_leaf(cluster: &Cluster, p: u8, place: &Place) -> Option<Found>
    requires small { IsSmallPlace place.now }
    requires below_root { 0 < place.now.queue }
    requires there { IsThere cluster.now p place.now.queue }
    requires leaf { IsLeaf cluster.now.rows place.now.queue }
    ensures first { (node : Node) → node.label ≡ label_of cluster.now p
        → IsPlaceOf cluster.now p (free (state_in cluster.now) node) place.now
        → IsFirstOwn cluster.now p node place.now.queue result }
    ensures none { HasAmountsIn cluster.now p place.now → IfNone result
        (HasNoneIn cluster.now p place.now.headroom place.now.queue) }
{
    let lane = lane_of(cluster, p, place.queue);
    let tests = tests_of(cluster, p, place);
    first_own(cluster.inventory(), lane, p, &tests)
}

/// With more users a leaf is not searched for any room: the search may go through them all.
const FEW_USERS: usize = 64;

/// Whether no request of a leaf on a partition keeps the limits of its user and of the leaf's masters, so that none may be
/// placed in any room. It is not found out of a leaf with many users.
pub fn is_shut_leaf(cluster: &Cluster, p: u8, place: &Place) -> bool
    requires small { IsSmallPlace place.now }
    requires below_root { 0 < place.now.queue }
    requires there { IsThere cluster.now p place.now.queue }
    requires leaf { IsLeaf cluster.now.rows place.now.queue }
    requires amounts { HasAmountsIn cluster.now p place.now }
    ensures { IsTrue result → IsShutIn cluster.now p place.now.queue any_room }
{
    let users = lane_of(cluster, p, place.queue).users();
    users <= FEW_USERS && first_in_leaf(cluster, p, &place.in_any_room()).is_none()
}

/// The first ask of a leaf for DEFAULT that a node with so much free may take as a guest.
pub fn first_guest_in_leaf(cluster: &Cluster, leaf: usize, room: Resource) -> Option<Found>
    requires there { IsThere cluster.now 0 leaf }
    requires leaf { IsLeaf cluster.now.rows leaf }
    ensures { (node : Node) → room ≡ free (state_in cluster.now) node
        → IsFirstGuest cluster.now node leaf result }
{
    let lane = lane_of(cluster, 0, leaf);
    first_guest(cluster.inventory(), lane, room)
}

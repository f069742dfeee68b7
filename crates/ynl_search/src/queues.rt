//! The queues of a cluster, as a search comes to them.

ghost use Rattle.std.specs.Prelude.{◌≡◌, ◌<◌, ◌&&◌, IsTrue, length, slice_index_or};
ghost use Rattle.ynl_resource.specs.declared.amounts.Resource.{Resource as Amount};
ghost use Rattle.ynl_model.specs.Cluster.{guaranteed, maximum, used};
ghost use Rattle.ynl_inventory.specs.layout.Paths.{HasNumber, IsChild};
ghost use Rattle.ynl_inventory.specs.Sound.{HasPartition, IsLeaf};
ghost use Rattle.ynl_cluster.specs.Cluster.{label_of, path_of, state_in};
ghost use Rattle.ynl_search.specs.notes.Shut.{keeps_maximum};
ghost use Rattle.ynl_search.specs.Places.{IsSmallPlace, allows};
ghost use Rattle.ynl_search.specs.Scenes.{HasAmountsIn, IsPlaceOf, IsReached};

use crate::descent::Standing;
use crate::leaves::cell_of;
use crate::place::Place;
use crate::reached::Reached;
use ynl_cluster::Cluster;
use ynl_queues::share_of;
use ynl_resource::Resource;

/// Root, on a partition where a node has so much free.
pub fn root_at(cluster: &Cluster, p: u8, free: Resource) -> Place
    requires { HasPartition cluster.now.rows p }
    ensures place { IsPlaceOf cluster.now p free result }
    ensures small { IsSmallPlace result }
    ensures queue { result.queue ≡ 0 }
{
    Place::root(cluster.total(p), &cluster.used(p, 0).used, free)
}

/// A queue just below one.
pub fn child_at(cluster: &Cluster, p: u8, place: &Place, child: usize) -> Place
    requires small { IsSmallPlace place.now }
    requires partition { HasPartition cluster.now.rows p }
    requires child { IsChild cluster.now.rows.paths place.now.queue child }
    ensures place { (free : Amount) → IsPlaceOf cluster.now p free place.now
        → IsPlaceOf cluster.now p free result }
    ensures headroom { place.now.most ≡ maximum (state_in cluster.now)
        (path_of cluster.now place.now.queue) (label_of cluster.now p) → (size : Amount)
        → allows result.headroom size ≡ (allows place.now.headroom size
        && keeps_maximum (state_in cluster.now) (label_of cluster.now p) size
        (path_of cluster.now result.queue)) }
    ensures small { IsSmallPlace result }
    ensures queue { result.queue ≡ child }
{
    let cell = cell_of(cluster, p, child);
    place.below(child, &cell)
}

/// A queue with those just below it.
pub fn reach(cluster: &Cluster, place: Place) -> Reached<'_>
    requires small { IsSmallPlace place }
    requires there { HasNumber cluster.now.rows.paths place.queue }
    ensures place { result.place ≡ place }
    ensures reached { IsReached cluster.now place result.children.now }
{
    let inventory = cluster.inventory();
    // Opens the inventory, whose rows are sound.
    let _ = inventory.partition_count();
    Reached {
        place,
        children: inventory.layout().children(place.queue),
    }
}

/// Whether a queue below root has none below it.
pub(crate) fn is_leaf(cluster: &Cluster, queue: usize) -> bool
    requires below_root { 0 < queue }
    requires there { HasNumber cluster.now.rows.paths queue }
    ensures { IsTrue result → IsLeaf cluster.now.rows queue }
{
    cluster.inventory().layout().children(queue).len() == 0
}

/// The queue in a place just below one that was reached.
pub fn child_in(cluster: &Cluster, p: u8, reached: &Reached<'_>, at: usize) -> Place
    requires partition { HasPartition cluster.now.rows p }
    requires reached { IsReached cluster.now reached.now.place reached.now.children.now }
    requires at { at < length reached.now.children.now }
    ensures place { (free : Amount) → IsPlaceOf cluster.now p free reached.now.place
        → IsPlaceOf cluster.now p free result }
    ensures headroom { reached.now.place.most ≡ maximum (state_in cluster.now)
        (path_of cluster.now reached.now.place.queue) (label_of cluster.now p)
        → (size : Amount) → allows result.headroom size
        ≡ (allows reached.now.place.headroom size
        && keeps_maximum (state_in cluster.now) (label_of cluster.now p) size
        (path_of cluster.now result.queue)) }
    ensures small { IsSmallPlace result }
    ensures queue { result.queue ≡ slice_index_or reached.now.children.now at 0 }
    ensures child { IsChild cluster.now.rows.paths reached.now.place.queue result.queue }
{
    child_at(cluster, p, &reached.place, reached.children[at])
}

/// How a queue just below one stands among its siblings, in this place among them.
pub fn standing_at(cluster: &Cluster, p: u8, place: &Place, child: usize, at: usize) -> Standing
    requires small { IsSmallPlace place.now }
    requires partition { HasPartition cluster.now.rows p }
    requires child { IsChild cluster.now.rows.paths place.now.queue child }
    ensures place { result.place ≡ at }
    ensures used { result.used ≡ (used (state_in cluster.now)
        (path_of cluster.now child) (label_of cluster.now p)).memory }
    ensures guaranteed { HasAmountsIn cluster.now p place.now
        → result.guaranteed ≡ (guaranteed cluster.now.config (state_in cluster.now)
        (path_of cluster.now child) (label_of cluster.now p)).memory }
{
    let share = cluster.capacity_share(p, child);
    let guaranteed = share_of(&place.guaranteed, &share);
    Standing {
        used: cluster.used(p, child).used.memory,
        guaranteed: guaranteed.memory,
        place: at,
    }
}

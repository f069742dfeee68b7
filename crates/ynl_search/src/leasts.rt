//! What each request below a queue is for at least.

ghost use Rattle.std.specs.Prelude.{◌<◌, IsTrue, length};
ghost use Rattle.ynl_resource.specs.declared.labels.Label.TheVariants.{Unlabelled};
ghost use Rattle.ynl_model.specs.Service.{asks_for, items_for};
ghost use Rattle.ynl_inventory.specs.Sound.{HasPartition};
ghost use Rattle.ynl_cluster.specs.Cluster.{label_of, path_of, state_in, IsCell as IsThere};
ghost use Rattle.ynl_search.specs.notes.Shut.{AreAtLeast, AreShut};
ghost use Rattle.ynl_search.specs.Scenes.{IsReached};
ghost use Rattle.ynl_search.specs.Shut.{IsGuestless};

use crate::notes::{Shut, least_asked, least_in, less_of};
use crate::place::ANY;
use crate::queues::is_leaf;
use crate::reached::Reached;
use ynl_cluster::Cluster;
use ynl_resource::Resource;

/// What each request below a queue on a partition is for at least: by what waits in it if it is a leaf, and else by what is
/// noted of it.
fn least_below(cluster: &Cluster, notes: &Shut, p: u8, queue: usize) -> Resource
    requires below_root { 0 < queue }
    requires there { IsThere cluster.now p queue }
    requires notes { AreShut cluster.now notes.now }
    ensures { AreAtLeast (items_for (state_in cluster.now) (label_of cluster.now p))
        (path_of cluster.now queue) result }
{
    if is_leaf(cluster, queue) {
        least_in(cluster, p, queue)
    } else {
        notes.noted(p, queue).least
    }
}

/// What each ask for DEFAULT below a queue is for at least.
fn least_asked_below(cluster: &Cluster, notes: &Shut, queue: usize) -> Resource
    requires below_root { 0 < queue }
    requires there { IsThere cluster.now 0 queue }
    requires notes { AreShut cluster.now notes.now }
    ensures { AreAtLeast (asks_for (state_in cluster.now) Unlabelled)
        (path_of cluster.now queue) result }
{
    if is_leaf(cluster, queue) {
        least_asked(cluster, queue)
    } else {
        notes.least_guest(queue)
    }
}

/// Whether no guest comes from below a queue in a room, since nothing fits there that is asked for.
pub(crate) fn is_guestless(cluster: &Cluster, notes: &Shut, queue: usize, room: &Resource) -> bool
    requires below_root { 0 < queue }
    requires there { IsThere cluster.now 0 queue }
    requires notes { AreShut cluster.now notes.now }
    ensures { IsTrue result
        → IsGuestless (state_in cluster.now) (path_of cluster.now queue) room.now }
{
    !least_asked_below(cluster, notes, queue).fits_in(*room)
}

/// What each request is for at least below a queue that has others just below it: the least of what it is for below those.
fn least_of_children(cluster: &Cluster, notes: &Shut, p: u8, queue: &Reached<'_>) -> Resource
    requires partition { HasPartition cluster.now.rows p }
    requires notes { AreShut cluster.now notes.now }
    requires reached { IsReached cluster.now queue.now.place queue.now.children.now }
    requires some { 0 < length queue.now.children.now }
    ensures { AreAtLeast (items_for (state_in cluster.now) (label_of cluster.now p))
        (path_of cluster.now queue.now.place.queue) result }
{
    let mut least = ANY;
    for i in 0..queue.children.len() {
        least = less_of(least, least_below(cluster, notes, p, queue.children[i]));
    }
    least
}

/// What to note that each request below a queue is for at least. What is noted of a leaf stays: its lane tells its least.
pub(crate) fn least_to_note(
    cluster: &Cluster,
    notes: &Shut,
    p: u8,
    queue: &Reached<'_>,
    before: Resource,
) -> Resource
    requires partition { HasPartition cluster.now.rows p }
    requires notes { AreShut cluster.now notes.now }
    requires reached { IsReached cluster.now queue.now.place queue.now.children.now }
    requires before { AreAtLeast (items_for (state_in cluster.now) (label_of cluster.now p))
        (path_of cluster.now queue.now.place.queue) before }
    ensures { AreAtLeast (items_for (state_in cluster.now) (label_of cluster.now p))
        (path_of cluster.now queue.now.place.queue) result }
{
    if queue.children.len() == 0 {
        return before;
    }
    least_of_children(cluster, notes, p, queue)
}

/// What each ask for DEFAULT is for at least below a queue that has others just below it.
pub(crate) fn least_asked_of_children(
    cluster: &Cluster,
    notes: &Shut,
    queue: &Reached<'_>,
) -> Resource
    requires notes { AreShut cluster.now notes.now }
    requires reached { IsReached cluster.now queue.now.place queue.now.children.now }
    requires some { 0 < length queue.now.children.now }
    ensures { AreAtLeast (asks_for (state_in cluster.now) Unlabelled)
        (path_of cluster.now queue.now.place.queue) result }
{
    let mut least = ANY;
    for i in 0..queue.children.len() {
        least = less_of(least, least_asked_below(cluster, notes, queue.children[i]));
    }
    least
}

//! The look at a queue before a search goes down there.

ghost use Rattle.std.specs.Prelude.{◌≡◌, ◌<◌, IfSome, IsTrue, false, length, slice_index_or};
ghost use Rattle.ynl_model.specs.Cluster.{maximum};
ghost use Rattle.ynl_inventory.specs.Sound.{HasPartition};
ghost use Rattle.ynl_cluster.specs.Cluster.{label_of, path_of, state_in, IsCell as IsThere};
ghost use Rattle.ynl_search.specs.notes.Shut.{AreShut};
ghost use Rattle.ynl_search.specs.Places.{any_room};
ghost use Rattle.ynl_search.specs.Scenes.{HasAmountsIn, IsReached};
ghost use Rattle.ynl_search.specs.Shut.{HasNoneIn, IsClosedIn, IsShutIn, covers, is_passed};

use crate::notes::{Noted, Shut, lane_of};
use crate::place::{ANY, Place};
use crate::queues::{child_in, is_leaf};
use crate::reached::Reached;
use ynl_cluster::Cluster;
use ynl_lanes::lane::Kind;
use ynl_resource::Resource;

/// Whether a room that is noted of a queue covers another: what fits in the other fits in it.
pub(crate) fn covers(noted: Option<Resource>, room: &Resource) -> bool
    ensures { result ≡ covers noted room.now }
{
    match noted {
        Some(noted) => room.fits_in(noted),
        None => false,
    }
}

/// Whether what is noted of a queue says that nothing below it may be placed in a room.
pub(crate) fn is_passed(noted: &Noted, room: &Resource) -> bool
    ensures { result ≡ is_passed noted.now room.now }
{
    covers(noted.room, room) || !noted.least.fits_in(*room)
}

/// Whether a queue is a leaf in which nothing that waits fits in a room.
fn has_too_large(cluster: &Cluster, p: u8, queue: usize, room: &Resource) -> bool
    requires below_root { 0 < queue }
    requires there { IsThere cluster.now p queue }
    ensures { IsTrue result → IsShutIn cluster.now p queue room.now }
{
    if !is_leaf(cluster, queue) {
        return false;
    }
    let lane = lane_of(cluster, p, queue);
    !lane.least(Kind::Ask).fits(room) && !lane.least(Kind::Master).fits(room)
}

/// Whether nothing below a queue may be placed for which there is headroom: by what is noted of the queue, or by what
/// waits in it if it is a leaf.
fn has_none(cluster: &Cluster, notes: &Shut, p: u8, place: &Place) -> bool
    requires below_root { 0 < place.now.queue }
    requires there { IsThere cluster.now p place.now.queue }
    requires notes { AreShut cluster.now notes.now }
    ensures { IsTrue result
        → HasNoneIn cluster.now p place.now.headroom place.now.queue }
{
    if !place.headroom.is_open {
        return true;
    }
    let room = &place.headroom.room;
    if is_passed(&notes.noted(p, place.queue), room) {
        return true;
    }
    has_too_large(cluster, p, place.queue, room)
}

/// Whether something below the queue in a place just below one may be placed for which there is headroom, as far as the
/// queue shows at once. A leaf may show that there is none before its own headroom is worked out.
// In the descent's loop a call would cost about as much as what it does.
#[inline(always)]
pub(crate) fn is_child_open(
    cluster: &Cluster,
    notes: &Shut,
    p: u8,
    queue: &Reached<'_>,
    at: usize,
) -> bool
    requires partition { HasPartition cluster.now.rows p }
    requires notes { AreShut cluster.now notes.now }
    requires reached { IsReached cluster.now queue.now.place queue.now.children.now }
    requires at { at < length queue.now.children.now }
    requires most { queue.now.place.most ≡ maximum (state_in cluster.now)
        (path_of cluster.now queue.now.place.queue) (label_of cluster.now p) }
    ensures { result ≡ false → IsClosedIn cluster.now p queue.now.place.headroom
        (slice_index_or queue.now.children.now at 0) }
{
    if has_too_large(cluster, p, queue.children[at], &queue.place.headroom.room) {
        return false;
    }
    let child = child_in(cluster, p, queue, at);
    !has_none(cluster, notes, p, &child)
}

/// Whether nothing below a queue that has others below it may be placed in any room: each of those just below it shows so
/// at once.
fn is_shut_in_any_room(cluster: &Cluster, notes: &Shut, p: u8, queue: &Reached<'_>) -> bool
    requires partition { HasPartition cluster.now.rows p }
    requires notes { AreShut cluster.now notes.now }
    requires reached { IsReached cluster.now queue.now.place queue.now.children.now }
    requires amounts { HasAmountsIn cluster.now p queue.now.place }
    ensures { IsTrue result → IsShutIn cluster.now p queue.now.place.queue any_room }
{
    if queue.children.len() == 0 {
        return false;
    }
    let any = Reached {
        place: queue.place.in_any_room(),
        children: queue.children,
    };
    for at in 0..queue.children.len() {
        if !is_passed(&notes.noted(p, queue.children[at]), &ANY)
            && is_child_open(cluster, notes, p, &any, at)
        {
            return false;
        }
    }
    true
}

/// The room in which a queue is shut that is shut in its own: any, if it is shut in any.
fn shut_room(cluster: &Cluster, notes: &Shut, p: u8, queue: &Reached<'_>) -> Resource
    requires partition { HasPartition cluster.now.rows p }
    requires notes { AreShut cluster.now notes.now }
    requires reached { IsReached cluster.now queue.now.place queue.now.children.now }
    requires amounts { HasAmountsIn cluster.now p queue.now.place }
    ensures { IsShutIn cluster.now p queue.now.place.queue queue.now.place.headroom.room
        → IsShutIn cluster.now p queue.now.place.queue result }
{
    if is_shut_in_any_room(cluster, notes, p, queue) {
        ANY
    } else {
        queue.place.headroom.room
    }
}

/// The room to note of a queue below which nothing may be placed for which there is headroom. What is noted already stays
/// where nothing better is known.
pub(crate) fn room_to_note(
    cluster: &Cluster,
    notes: &Shut,
    p: u8,
    queue: &Reached<'_>,
    before: Option<Resource>,
) -> Option<Resource>
    requires partition { HasPartition cluster.now.rows p }
    requires notes { AreShut cluster.now notes.now }
    requires reached { IsReached cluster.now queue.now.place queue.now.children.now }
    requires amounts { HasAmountsIn cluster.now p queue.now.place }
    requires before { IfSome before (IsShutIn cluster.now p queue.now.place.queue) }
    ensures { (IsTrue queue.now.place.headroom.is_open
        → IsShutIn cluster.now p queue.now.place.queue queue.now.place.headroom.room)
        → IfSome result (IsShutIn cluster.now p queue.now.place.queue) }
{
    let headroom = &queue.place.headroom;
    if !headroom.is_open || covers(before, &headroom.room) {
        return before;
    }
    Some(shut_room(cluster, notes, p, queue))
}

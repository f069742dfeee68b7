//! The tree of queues in which what is eligible is looked for.

ghost use Rattle.std.specs.Prelude.{◌<◌};
ghost use Rattle.ynl_inventory.specs.Sound.{IsLeaf};
ghost use Rattle.ynl_cluster.specs.Cluster.{IsCell};
ghost use Rattle.ynl_search.specs.notes.Shut.{AreShut};
ghost use Rattle.ynl_search.specs.Places.{IsSmallPlace};
ghost use Rattle.ynl_search.specs.Scenes.{HasAmountsIn};

use crate::descent::{Standing, Tree};
use crate::found::Found;
use crate::leasts::least_to_note;
use crate::leaves::{first_in_leaf, is_shut_leaf};
use crate::notes::{Noted, Shut};
use crate::open_child::{is_child_open, is_passed, room_to_note};
use crate::place::{ANY, Place};
use crate::queues::{child_in, reach, standing_at};
use crate::reached::Reached;
use ynl_cluster::Cluster;
use ynl_resource::Resource;

/// The tree of queues with the requests that are eligible on a node of a partition, which has so
/// much free.
#[derive(Drop)]
pub(crate) struct OwnTree<'a> {
    pub(crate) cluster: &'a Cluster,
    pub(crate) node: u32,
    pub(crate) partition: u8,
    pub(crate) room: Resource,
}

/// A leaf is noted for any room, if none of its requests may be placed in any.
fn note_leaf(cluster: &Cluster, notes: &mut Shut, p: u8, place: &Place)
    requires notes { AreShut cluster.now notes.old }
    requires small { IsSmallPlace place.now }
    requires below_root { 0 < place.now.queue }
    requires there { IsCell cluster.now p place.now.queue }
    requires leaf { IsLeaf cluster.now.rows place.now.queue }
    requires amounts { HasAmountsIn cluster.now p place.now }
    ensures { AreShut cluster.now notes.new }
{
    if is_shut_leaf(cluster, p, place) {
        let least = notes.noted(p, place.queue).least;
        let room = Some(ANY);
        notes.note(p, place.queue, Noted { room, least });
    }
}

impl<'a> Tree for OwnTree<'a> {
    ghost use Rattle.ynl_cluster.specs.Cluster.{path_of};
    ghost use Rattle.ynl_search.specs.Laws.{item_wanted};
    ghost use Rattle.ynl_search.specs.Scenes.{branch_at, IsOwnQueue, node_at, own_scene, queues_below};

    type Queue = Reached<'a>;

    type Found = Found;

    type Notes = Shut;

    ghost is_queue = { λ t q. IsOwnQueue
        t.cluster.now t.node t.partition t.room q.place q.children.now };

    ghost branch = { λ t q. branch_at t.cluster.now
        (own_scene t.cluster.now (node_at t.cluster.now t.node)) q.place.queue q.children.now };

    ghost height = { λ t q. queues_below t.cluster.now.rows.paths
        (path_of t.cluster.now q.place.queue) };

    ghost item = { λ t found. item_wanted t.cluster.now.rows t.partition found };

    ghost are_notes = { λ t notes. AreShut t.cluster.now notes };

    fn children(&self, queue: &Reached<'a>) -> usize {
        queue.children.len()
    }

    fn child(&self, queue: &Reached<'a>, place: usize) -> Reached<'a> {
        let child = child_in(self.cluster, self.partition, queue, place);
        reach(self.cluster, child)
    }

    fn look(&self, notes: &Shut, queue: &Reached<'a>, place: usize) -> Option<Standing> {
        let child = queue.children[place];
        let noted = notes.noted(self.partition, child);
        if is_passed(&noted, &queue.place.headroom.room) {
            return None;
        }
        Some(standing_at(self.cluster, self.partition, &queue.place, child, place))
    }

    fn is_open(&self, notes: &Shut, queue: &Reached<'a>, place: usize) -> bool {
        is_child_open(self.cluster, notes, self.partition, queue, place)
    }

    fn first_in(&self, notes: &mut Shut, leaf: &Reached<'a>) -> Option<Found> {
        if leaf.place.queue == 0 {
            return None;
        }
        let found = first_in_leaf(self.cluster, self.partition, &leaf.place);
        if found.is_none() {
            note_leaf(self.cluster, notes, self.partition, &leaf.place);
        }
        found
    }

    fn note(&self, notes: &mut Shut, queue: &Reached<'a>) {
        let p = self.partition;
        let before = notes.noted(p, queue.place.queue);
        let room = room_to_note(self.cluster, notes, p, queue, before.room);
        let least = least_to_note(self.cluster, notes, p, queue, before.least);
        notes.note(p, queue.place.queue, Noted { room, least });
    }
}

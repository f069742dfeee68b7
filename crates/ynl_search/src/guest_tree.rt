//! The tree of queues in which guests are looked for.

use crate::descent::{Standing, Tree};
use crate::found::Found;
use crate::leasts::{is_guestless, least_asked_of_children};
use crate::leaves::first_guest_in_leaf;
use crate::notes::Shut;
use crate::queues::{child_in, reach, standing_at};
use crate::reached::Reached;
use ynl_cluster::Cluster;
use ynl_resource::Resource;

/// The tree of queues with the asks for DEFAULT for which a node has room.
#[derive(Drop)]
pub(crate) struct GuestTree<'a> {
    pub(crate) cluster: &'a Cluster,
    pub(crate) node: u32,
    pub(crate) room: Resource,
}

impl<'a> Tree for GuestTree<'a> {
    ghost use Rattle.ynl_cluster.specs.Cluster.{path_of};
    ghost use Rattle.ynl_search.specs.notes.Shut.{AreShut};
    ghost use Rattle.ynl_search.specs.Laws.{item_asked};
    ghost use Rattle.ynl_search.specs.Scenes.{branch_at, guest_scene, IsGuestQueue, node_at, queues_below};

    type Queue = Reached<'a>;

    type Found = Found;

    type Notes = Shut;

    ghost is_queue = { λ t q. IsGuestQueue t.cluster.now t.node t.room q.place q.children.now };

    ghost branch = { λ t q. branch_at t.cluster.now
        (guest_scene t.cluster.now (node_at t.cluster.now t.node)) q.place.queue q.children.now };

    ghost height = { λ t q. queues_below t.cluster.now.rows.paths
        (path_of t.cluster.now q.place.queue) };

    ghost item = { λ t found. item_asked t.cluster.now.rows 0 found };

    ghost are_notes = { λ t notes. AreShut t.cluster.now notes };

    fn children(&self, queue: &Reached<'a>) -> usize {
        queue.children.len()
    }

    fn child(&self, queue: &Reached<'a>, place: usize) -> Reached<'a> {
        let child = child_in(self.cluster, 0, queue, place);
        reach(self.cluster, child)
    }

    fn look(&self, notes: &Shut, queue: &Reached<'a>, place: usize) -> Option<Standing> {
        let child = queue.children[place];
        if is_guestless(self.cluster, notes, child, &self.room) {
            return None;
        }
        Some(standing_at(self.cluster, 0, &queue.place, child, place))
    }

    fn is_open(&self, _notes: &Shut, _queue: &Reached<'a>, _place: usize) -> bool {
        true
    }

    fn first_in(&self, _notes: &mut Shut, leaf: &Reached<'a>) -> Option<Found> {
        if leaf.place.queue == 0 {
            return None;
        }
        first_guest_in_leaf(self.cluster, leaf.place.queue, self.room)
    }

    fn note(&self, notes: &mut Shut, queue: &Reached<'a>) {
        if queue.children.len() == 0 {
            return;
        }
        let least = least_asked_of_children(self.cluster, notes, queue);
        notes.note_guest(queue.place.queue, least);
    }
}

//! What is found of a configuration's queues by their places.

ghost use Rattle.std.specs.Option.{IsSome};
ghost use Rattle.std.specs.Prelude.{◌≡◌, ◌<◌, map, find, option_map, length, slice_index_or, IfSome};
ghost use Rattle.ynl_resource.specs.Names.{same_path, same_label};
ghost use Rattle.ynl_model.specs.Queues.{QueueRow, capacity_on};
ghost use Rattle.ynl_queues.specs.Index.{AreSteps, HasSteps};

use crate::draft::Draft;
use crate::index::LabelShares;
use crate::rows::QueueRow;
use ynl_resource::{Hundredths, Label, Name};

fn shares_of<'a>(shares: &'a [LabelShares], label: &Label) -> Option<&'a LabelShares>
    ensures { option_map (λ r. r.now) result ≡ find (λ row. same_label row.label label.now) shares.now }
{
    shares.iter().find(|row| row.label == *label)
}

impl Draft {
    /// The row of the queue at a place.
    pub fn row_at(&self, place: usize) -> &QueueRow
        requires { place < length self.now.queues }
        ensures { (d : QueueRow) → result.now ≡ slice_index_or self.now.queues place d }
    {
        &self.queues()[place]
    }

    /// The places, in the configuration's order from 0, of the queues on the way to the queue at a
    /// place, from the top-level queue to itself. Nothing where no queue of
    /// that place has the path, or where a queue above it has no row.
    pub fn steps(&self, place: usize, queue: &[Name]) -> Option<&[usize]>
        ensures { IfSome result (λ steps. AreSteps self.now.queues queue.now steps.now) }
    {
        let row = self.kept_at(place, queue)?;
        match &row.steps {
            Some(steps) => Some(steps),
            None => None,
        }
    }

    /// The same of the queue that stands at a place, with no look at its path: nothing where no queue has the place, or
    /// where a queue above it has no row.
    pub fn steps_at(&self, place: usize) -> Option<&[usize]>
        ensures steps { IfSome result (λ steps. (d : QueueRow) → AreSteps self.now.queues (slice_index_or self.now.queues place d).path steps.now) }
        ensures sure { (d : QueueRow) → place < length self.now.queues → HasSteps self.now.queues (slice_index_or self.now.queues place d).path → IsSome result }
    {
        let row = self.index().row_at(place)?;
        match &row.steps {
            Some(steps) => Some(steps),
            None => None,
        }
    }

    /// What each queue's capacity on a partition is, in the order of the configuration; nothing where
    /// there is no such partition.
    pub fn capacities(&self, label: &Label) -> Option<&[Hundredths]>
        ensures { IfSome result (λ shares. shares.now ≡ map (λ row. capacity_on self.now row.path label.now) self.now.queues) }
    {
        let index = self.index();
        match shares_of(&index.shares, label) {
            Some(shares) => Some(&shares.capacities),
            None => None,
        }
    }
}

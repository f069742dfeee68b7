//! Labels and queues, and their readers.

ghost use Rattle.std.specs.Prelude.{◌≡◌, option_map, IfOk, IfSome, None, if◌then◌else◌};
ghost use Rattle.std.specs.List.{All};
ghost use Rattle.ynl_model.specs.Queues.{queue_row, is_queue, is_leaf, setting};
ghost use Rattle.ynl_resource.specs.declared.labels.Label.TheVariants.{Unlabelled};
ghost use Rattle.ynl_queues.specs.Index.{IsIndexOf, IsKeptOf, AreShares, has_below};

use crate::index::{IndexRow, LabelShares, QueueIndex, all_shares, has_below};
use crate::labels::Labels;
use crate::rows::{QueueRow, copy_rows};
use std::alloc::{AllocError, Global};
use std::marker::Model;
use ynl_resource::{Hundredths, Label, Name, Size};

/// What a configuration has, whatever faults it has: the labels, the queues below root, the most
/// containers that a heartbeat places, and the largest request. An index of the queues is kept beside
/// them, which no contract sees.
pub struct Draft {
    labels: Labels,
    queues: Vec<QueueRow>,
    containers_per_heartbeat: u32,
    maximum_allocation: Size,
    index: QueueIndex,
}

// By hand, so that crates above call it: one that is derived is proved anew in each of them, with all that it holds.
impl Drop for Draft {
    fn drop(self) {
        let Draft {
            labels: _,
            queues: _,
            containers_per_heartbeat: _,
            maximum_allocation: _,
            index: _,
        } = self;
    }
}

impl Model for Draft {
    ghost use Rattle.ynl_model.specs.Queues.{Config as Configured};

    ghost Value = { Configured };

    ghost use Rattle.ynl_queues.specs.DraftFields.{config_of, IsIndexed};

    ghost view = { config_of };

    ghost invariant = { IsIndexed };
}

impl Draft {
    /// What is made of these, as they stand.
    pub(crate) fn new(
        alloc: Global,
        labels: Labels,
        queues: Vec<QueueRow>,
        containers_per_heartbeat: u32,
        maximum_allocation: Size,
    ) -> Result<Draft, AllocError>
        ensures { IfOk result (λ draft. draft ≡ record { labels = labels; queues = queues.items; containers_per_heartbeat = containers_per_heartbeat; maximum_allocation = maximum_allocation }) }
    {
        let index = QueueIndex::new(alloc, &queues)?;
        let draft = Draft {
            labels,
            queues,
            containers_per_heartbeat,
            maximum_allocation,
            index,
        };
        let shares = all_shares(alloc, &draft)?;
        Ok(draft.with_shares(shares))
    }

    fn with_shares(self, shares: Vec<LabelShares>) -> Draft
        requires { All (AreShares self) shares.items }
        ensures { result ≡ self }
    {
        let mut draft = self;
        draft.index.shares = shares;
        draft
    }

    /// The labels.
    pub fn labels(&self) -> &Labels
        ensures { result.now ≡ self.now.labels }
    {
        &self.labels
    }

    /// The queues below root, in the order of the configuration.
    pub fn queues(&self) -> &[QueueRow]
        ensures { result.now ≡ self.now.queues }
    {
        &self.queues
    }

    /// The index.
    pub(crate) fn index(&self) -> &QueueIndex
        ensures { IsIndexOf self.now result.now }
    {
        &self.index
    }

    /// The same once more.
    pub(crate) fn copy(&self, alloc: Global) -> Result<Draft, AllocError>
        ensures { IfOk result (λ copy. copy ≡ self.now) }
    {
        let labels = self.labels.copy(alloc)?;
        let queues = copy_rows(alloc, &self.queues)?;
        Draft::new(
            alloc,
            labels,
            queues,
            self.containers_per_heartbeat,
            self.maximum_allocation,
        )
    }

    /// The most containers that a heartbeat places.
    pub fn containers_per_heartbeat(&self) -> u32
        ensures { result ≡ self.now.containers_per_heartbeat }
    {
        self.containers_per_heartbeat
    }

    /// The largest request.
    pub fn maximum_allocation(&self) -> Size
        ensures { result ≡ self.now.maximum_allocation }
    {
        self.maximum_allocation
    }

    /// The row of a queue.
    pub fn row(&self, queue: &[Name]) -> Option<&QueueRow>
        ensures { option_map (λ r. r.now) result ≡ queue_row self.now queue.now }
    {
        match self.index().place(queue) {
            Some(place) => Some(self.row_at(place)),
            None => None,
        }
    }

    /// Whether there is such a queue; root is one.
    pub fn is_queue(&self, queue: &[Name]) -> bool
        ensures { result ≡ is_queue self.now queue.now }
    {
        queue.is_empty() || self.row(queue).is_some()
    }

    /// What is kept of the queue at a place, where that is its path.
    pub(crate) fn kept_at(&self, place: usize, queue: &[Name]) -> Option<&IndexRow>
        ensures kept { IfSome result (λ row. IsKeptOf self.now.queues row.now) }
        ensures path { IfSome result (λ row. row.now.path ≡ queue.now) }
    {
        self.index().row(place, queue)
    }

    /// What is kept of a queue, where it has a row.
    fn kept(&self, queue: &[Name]) -> Option<&IndexRow>
        ensures kept { IfSome result (λ row. IsKeptOf self.now.queues row.now) }
        ensures path { IfSome result (λ row. row.now.path ≡ queue.now) }
    {
        let place = self.index().place(queue)?;
        self.kept_at(place, queue)
    }

    fn has_below(&self, queue: &[Name]) -> bool
        ensures { result ≡ has_below self.now.queues queue.now }
    {
        match self.kept(queue) {
            Some(row) => row.has_below,
            None => has_below(self.queues(), queue),
        }
    }

    /// Whether the queue is a leaf: no other queue is below it. Root is none, whatever is below it.
    #[tactic(auto, unfolding(ynl_model::specs::Queues::is_leaf))]
    pub fn is_leaf(&self, queue: &[Name]) -> bool
        ensures { result ≡ is_leaf self.now queue.now }
    {
        !queue.is_empty() && !self.has_below(queue)
    }

    /// The row of a leaf.
    pub fn leaf(&self, queue: &[Name]) -> Option<&QueueRow>
        ensures { option_map (λ r. r.now) result ≡ (if is_leaf self.now queue.now then queue_row self.now queue.now else None) }
    {
        let row = self.row(queue)?;
        if self.is_leaf(queue) { Some(row) } else { None }
    }

    /// The leaf's label for applications that name none.
    pub fn default_label(&self, leaf: &[Name]) -> Label
        ensures { result ≡ setting (λ row. row.leaf.default_label) Unlabelled self.now leaf.now }
    {
        match self.row(leaf) {
            Some(row) => row.leaf.default_label,
            None => Label::Unlabelled,
        }
    }

    /// The least percentage of the leaf's share that a user may take.
    pub fn minimum_user_limit_percent(&self, leaf: &[Name]) -> Hundredths
        ensures { result ≡ setting (λ row. row.leaf.minimum_user_limit_percent) 0 self.now leaf.now }
    {
        match self.row(leaf) {
            Some(row) => row.leaf.minimum_user_limit_percent,
            None => Hundredths::NOTHING,
        }
    }

    /// The multiple of the leaf's guarantee that a user may take, in hundredths.
    pub fn user_limit_factor(&self, leaf: &[Name]) -> u16
        ensures { result ≡ setting (λ row. row.leaf.user_limit_factor) 0 self.now leaf.now }
    {
        match self.row(leaf) {
            Some(row) => row.leaf.user_limit_factor,
            None => 0,
        }
    }

    /// The share of the leaf's maximum that masters may take together.
    pub fn maximum_am_resource_percent(&self, leaf: &[Name]) -> Hundredths
        ensures { result ≡ setting (λ row. row.leaf.maximum_am_resource_percent) 0 self.now leaf.now }
    {
        match self.row(leaf) {
            Some(row) => row.leaf.maximum_am_resource_percent,
            None => Hundredths::NOTHING,
        }
    }

    /// The most live applications of the leaf.
    pub fn maximum_applications(&self, leaf: &[Name]) -> u32
        ensures { result ≡ setting (λ row. row.leaf.maximum_applications) 0 self.now leaf.now }
    {
        match self.row(leaf) {
            Some(row) => row.leaf.maximum_applications,
            None => 0,
        }
    }
}

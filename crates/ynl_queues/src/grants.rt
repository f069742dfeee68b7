//! What decides the shares of a queue on all labels, looked up once.

ghost use Rattle.std.specs.Prelude.{◌≡◌};
ghost use Rattle.ynl_resource.specs.declared.labels.Label.{Label};

use crate::access::reaches;
use crate::draft::Draft;
use crate::labels::Labels;
use crate::rows::QueueRow;
use ynl_resource::{Hundredths, Label, Name};

/// A queue's row, if it has one, and the labels that it may use: those given, or all that are
/// configured where none are given.
#[derive(Clone, Copy)]
pub struct Grant<'a> {
    pub(crate) row: Option<&'a QueueRow>,
    pub(crate) reach: Option<&'a [Name]>,
}

impl<'a> Grant<'a> {
    ghost use Rattle.ynl_queues.specs.Grants.{capacity_at, maximum_at, reaches};

    /// Whether the queue may use the label.
    pub fn may_use(&self, labels: &Labels, label: &Label) -> bool
        ensures { result ≡ reaches labels.now self.now label.now }
    {
        reaches(labels, self.reach, label)
    }

    /// The queue's capacity on a partition.
    #[tactic(auto, unfolding(crate::specs::Grants::capacity_at))]
    pub fn capacity_on(&self, labels: &Labels, label: &Label) -> Hundredths
        ensures { result ≡ capacity_at labels.now self.now label.now }
    {
        match self.row {
            Some(row) if self.may_use(labels, label) => row.capacity_on(label),
            _ => Hundredths::NOTHING,
        }
    }

    /// The queue's configured maximum on a partition.
    #[tactic(auto, unfolding(crate::specs::Grants::maximum_at))]
    pub fn maximum_on(&self, labels: &Labels, label: &Label) -> Hundredths
        ensures { result ≡ maximum_at labels.now self.now label.now }
    {
        match self.row {
            Some(row) if self.may_use(labels, label) => row.maximum_on(label),
            _ => Hundredths::NOTHING,
        }
    }
}

impl Draft {
    ghost use Rattle.ynl_model.specs.Queues.{capacity_on, configured_maximum, may_use};
    ghost use Rattle.ynl_queues.specs.Grants.{capacity_at, maximum_at, reaches};

    /// What decides the queue's shares, for all labels.
    #[tactic(auto, unfolding(ynl_model::specs::Queues::capacity_on, ynl_model::specs::Queues::configured_maximum, ynl_model::specs::Queues::may_use, crate::specs::Grants::capacity_at, crate::specs::Grants::maximum_at))]
    pub fn grant<'a>(&'a self, queue: &[Name]) -> Grant<'a>
        ensures labels { (label : Label) → reaches self.now.labels result label ≡ may_use self.now queue.now label }
        ensures capacity { (label : Label) → capacity_at self.now.labels result label ≡ capacity_on self.now queue.now label }
        ensures maximum { (label : Label) → maximum_at self.now.labels result label ≡ configured_maximum self.now queue.now label }
    {
        Grant {
            row: self.row(queue),
            reach: self.reach(queue),
        }
    }
}

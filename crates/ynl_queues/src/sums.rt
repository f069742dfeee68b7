//! Whether the capacities of a configuration are sound: at most the maxima, and the whole or nothing
//! just below each queue.

ghost use Rattle.std.specs.Prelude.{◌≡◌, ◌≤◌, length, map, sum, IfOk, nat_le, ◌&&◌, ◌||◌, ◌==◌};
ghost use Rattle.std.specs.List.{list_all};
ghost use Rattle.ynl_resource.specs.Names.{root};
ghost use Rattle.ynl_resource.specs.declared.labels.Label.{Label};
ghost use Rattle.ynl_model.specs.Nodes.{partition_labels};
ghost use Rattle.ynl_model.specs.Queues.{is_leaf, capacity_on};
ghost use Rattle.ynl_model.specs.Accepted.{children, maximum_covers, adds_up};
ghost use Rattle.ynl_queues.specs.Grants.{capacity_at, maximum_at, total_at};
ghost use Rattle.ynl_resource.specs.Ranges.{most_queues, whole};

use crate::draft::Draft;
use crate::grants::Grant;
use crate::labels::Labels;
use crate::rows::QueueRow;
use crate::ways::parent_of;
use std::alloc::{AllocError, Global};
use ynl_resource::{Label, Name, WHOLE};

/// Whether the maximum is at least the capacity.
fn covers(labels: &Labels, grant: &Grant, label: &Label) -> bool
    ensures { result ≡ nat_le (capacity_at labels.now grant.now label.now) (maximum_at labels.now grant.now label.now) }
{
    let capacity = grant.capacity_on(labels, label).number();
    let maximum = grant.maximum_on(labels, label).number();
    capacity <= maximum
}

/// Whether the maximum is at least the capacity, on each label.
fn covers_labels(labels: &Labels, grant: &Grant) -> bool
    ensures { result ≡ list_all (λ label. nat_le (capacity_at labels.now grant.now label) (maximum_at labels.now grant.now label)) (map (λ row. Label.Named row.name) labels.now.rows) }
{
    labels
        .rows()
        .iter()
        .map(|row| Label::Named(row.name))
        .all(|label| covers(labels, grant, &label))
}

/// Whether the maximum is at least the capacity, on each partition.
fn covers_all(labels: &Labels, grant: &Grant) -> bool
    ensures { result ≡ list_all (λ label. nat_le (capacity_at labels.now grant.now label) (maximum_at labels.now grant.now label)) (partition_labels labels.now) }
{
    covers(labels, grant, &Label::Unlabelled) && covers_labels(labels, grant)
}

/// What the capacities of queues come to on a partition.
#[tactic(auto, unfolding(crate::specs::Grants::total_at))]
pub fn total_capacity(labels: &Labels, grants: &[Grant], label: &Label) -> u64
    requires { length grants.now ≤ most_queues }
    ensures { result ≡ total_at labels.now grants.now label.now }
{
    let mut total = 0;
    for grant in grants {
        total += grant.capacity_on(labels, label).number();
    }
    total
}

/// Whether the capacities come to the whole of a label, or to nothing.
fn comes_to_whole(labels: &Labels, grants: &[Grant], label: &Label) -> bool
    requires { length grants.now ≤ most_queues }
    ensures { result ≡ (total_at labels.now grants.now label.now == whole || total_at labels.now grants.now label.now == 0) }
{
    let total = total_capacity(labels, grants, label);
    total == WHOLE || total == 0
}

/// Whether the capacities come to the whole of each label, or to nothing.
fn labels_come_to_whole(labels: &Labels, grants: &[Grant]) -> bool
    requires { length grants.now ≤ most_queues }
    ensures { result ≡ list_all (λ row. total_at labels.now grants.now (Label.Named row.name) == whole || total_at labels.now grants.now (Label.Named row.name) == 0) labels.now.rows }
{
    labels.rows().iter().all(|row| comes_to_whole(labels, grants, &Label::Named(row.name)))
}

/// Whether the capacities come to the whole on DEFAULT, and on each label to the whole or to
/// nothing.
fn come_to_whole(labels: &Labels, grants: &[Grant]) -> bool
    requires { length grants.now ≤ most_queues }
    ensures { result ≡ (total_at labels.now grants.now Label.Unlabelled == whole && list_all (λ row. total_at labels.now grants.now (Label.Named row.name) == whole || total_at labels.now grants.now (Label.Named row.name) == 0) labels.now.rows) }
{
    total_capacity(labels, grants, &Label::Unlabelled) == WHOLE
        && labels_come_to_whole(labels, grants)
}

impl Draft {
    fn maximum_covers(&self, row: &QueueRow) -> bool
        ensures { result ≡ maximum_covers self.now row.now }
    {
        let grant = self.grant(row.path.names());
        covers_all(self.labels(), &grant)
    }

    /// Whether each queue's maximum is at least its capacity, on each partition.
    pub(crate) fn maxima_cover(&self) -> bool
        ensures { result ≡ list_all (maximum_covers self.now) self.now.queues }
    {
        self.queues().iter().all(|row| self.maximum_covers(row))
    }

    /// What decides the shares of the queues just below a queue, in the order of the configuration.
    pub fn grants_below(&self, alloc: Global, queue: &[Name]) -> Result<Vec<Grant<'_>>, AllocError>
        ensures few { IfOk result (λ below. length below.items ≤ length self.now.queues) }
        ensures capacities { IfOk result (λ below. (label : Label) → map (λ s. capacity_at self.now.labels s label) below.items ≡ map (λ row. capacity_on self.now row.path label) (children self.now queue.now)) }
    {
        let mut below = Vec::new(alloc);
        for row in self.queues() {
            if parent_of(row.path.names()) == queue {
                below.push(self.grant(row.path.names()))?;
            }
        }
        Ok(below)
    }

    /// Whether the capacities just below a queue come to the whole, or on a label to nothing.
    fn adds_up(&self, alloc: Global, queue: &[Name]) -> Result<bool, AllocError>
        requires { length self.now.queues ≤ most_queues }
        ensures { IfOk result (λ sound. sound ≡ adds_up self.now queue.now) }
    {
        let below = self.grants_below(alloc, queue)?;
        Ok(come_to_whole(self.labels(), &below))
    }

    /// Whether the capacities just below root and below each parent come to the whole, or on a label
    /// to nothing.
    pub(crate) fn all_add_up(&self, alloc: Global) -> Result<bool, AllocError>
        requires { length self.now.queues ≤ most_queues }
        ensures { IfOk result (λ sound. sound ≡ (adds_up self.now root && list_all (λ row. is_leaf self.now row.path || adds_up self.now row.path) self.now.queues)) }
    {
        if !self.adds_up(alloc, &[])? {
            return Ok(false);
        }
        for row in self.queues() {
            let queue = row.path.names();
            if !self.is_leaf(queue) && !self.adds_up(alloc, queue)? {
                return Ok(false);
            }
        }
        Ok(true)
    }
}

//! Queues on partitions, by path and label.

ghost use Rattle.std.specs.Prelude.{◌≡◌, ◌≤◌, length, take, IfNone, IfSome};
ghost use Rattle.ynl_model.specs.Cluster.{guaranteed, maximum};
ghost use Rattle.ynl_laws.specs.Uses.{use_of};
ghost use Rattle.ynl_cluster.specs.Cluster.{state_in};
ghost use Rattle.ynl_replies.specs.admission.Named.{IsCellBelowRoot, IsCellOf};
ghost use Rattle.ynl_service.specs.reading.reasons.Facts.{IsAsking};
ghost use Rattle.ynl_service.specs.reading.Readings.{IsNowhere};

use ynl_cluster::Cluster;
use ynl_model::Use;
use ynl_replies::admission::{CellNumbers, partition_of, queue_of};
use ynl_resource::{Label, Path, Resource};
use ynl_waits::Applicant;

/// The queue of a path below root on the partition of a label, if both are there.
pub(crate) fn below_root(cluster: &Cluster, queue: &Path, label: &Label) -> Option<CellNumbers>
    ensures some { IfSome result (IsCellBelowRoot cluster.now queue.now label.now) }
    ensures none { IfNone result (IsNowhere cluster.now.config queue.now label.now) }
{
    // Opens the inventory, whose rows are sound.
    let _ = cluster.inventory();
    let Some(partition) = partition_of(cluster, label) else {
        return None;
    };
    let Some(number) = queue_of(cluster, queue) else {
        return None;
    };
    if number == 0 {
        return None;
    }
    Some(CellNumbers {
        partition,
        queue: number,
    })
}

/// The leaf of an application on a partition where that asks.
pub(crate) fn leaf_of(cluster: &Cluster, app: &Applicant, label: &Label) -> CellNumbers
    requires { IsAsking (state_in cluster.now) app.now label.now }
    ensures { IsCellOf cluster.now app.now.leaf label.now result }
{
    // Opens the inventory, whose rows are sound.
    let _ = cluster.inventory();
    let Some(partition) = partition_of(cluster, label) else {
        unreachable!()
    };
    let Some(queue) = queue_of(cluster, &app.leaf) else {
        unreachable!()
    };
    CellNumbers { partition, queue }
}

/// A queue on the way to the leaf of an application, so many steps below root, on a partition where
/// that asks.
fn step_of(cluster: &Cluster, app: &Applicant, depth: usize, label: &Label) -> CellNumbers
    requires asks { IsAsking (state_in cluster.now) app.now label.now }
    requires depth { depth ≤ length app.now.leaf }
    ensures { IsCellOf cluster.now (take depth app.now.leaf) label.now result }
{
    let leaf = leaf_of(cluster, app, label);
    let line = cluster.inventory().layout().line(leaf.queue);
    CellNumbers {
        partition: leaf.partition,
        queue: line[depth],
    }
}

/// What a queue on the way to the leaf of an application uses of a partition where that asks.
pub(crate) fn used_at<'a>(
    cluster: &'a Cluster,
    app: &Applicant,
    depth: usize,
    label: &Label,
) -> &'a Use
    requires asks { IsAsking (state_in cluster.now) app.now label.now }
    requires depth { depth ≤ length app.now.leaf }
    ensures { result.now ≡ use_of (state_in cluster.now) label.now (take depth app.now.leaf) }
{
    let step = step_of(cluster, app, depth, label);
    cluster.used(step.partition, step.queue)
}

/// The most that a queue on the way to the leaf of an application may use of a partition where that
/// asks.
pub(crate) fn maximum_at(
    cluster: &Cluster,
    app: &Applicant,
    depth: usize,
    label: &Label,
) -> Resource
    requires asks { IsAsking (state_in cluster.now) app.now label.now }
    requires depth { depth ≤ length app.now.leaf }
    ensures { result ≡ maximum (state_in cluster.now) (take depth app.now.leaf) label.now }
{
    let step = step_of(cluster, app, depth, label);
    cluster.maximum(step.partition, step.queue)
}

/// What the leaf of an application uses of a partition where that asks.
pub(crate) fn leaf_used<'a>(cluster: &'a Cluster, app: &Applicant, label: &Label) -> &'a Use
    requires { IsAsking (state_in cluster.now) app.now label.now }
    ensures { result.now ≡ use_of (state_in cluster.now) label.now app.now.leaf }
{
    let leaf = leaf_of(cluster, app, label);
    cluster.used(leaf.partition, leaf.queue)
}

/// What the leaf of an application is guaranteed of a partition where that asks.
pub(crate) fn leaf_guaranteed(cluster: &Cluster, app: &Applicant, label: &Label) -> Resource
    requires { IsAsking (state_in cluster.now) app.now label.now }
    ensures { result ≡ guaranteed cluster.now.config (state_in cluster.now)
        app.now.leaf label.now }
{
    let leaf = leaf_of(cluster, app, label);
    cluster.guaranteed(leaf.partition, leaf.queue)
}

//! What lines tell of queues: which are stopped, and maxima that are not the configured ones.

ghost use Rattle.std.specs.Prelude.{◌≡◌, ◌&&◌, false, is_some, nat_eq, true, IfSome};
ghost use Rattle.std.specs.List.{list_any};
ghost use Rattle.ynl_resource.specs.Names.{same_label, same_path};
ghost use Rattle.ynl_model.specs.Accepted.{is_accepted};
ghost use Rattle.ynl_cluster.specs.Cluster.{state_in};
ghost use Rattle.ynl_saved.specs.declared.lines.StateLine.TheVariants.{Maximum, Stopped};
ghost use Rattle.ynl_saved.specs.Restoring.{is_sound_line, Restored};
ghost use Rattle.ynl_replies.specs.admission.Named.{IsBelowRoot, IsCellBelowRoot};
ghost use Rattle.ynl_snapshots.specs.restoring.Taking.{Takes};
ghost use Rattle.ynl_snapshots.specs.restoring.Telling.{AreMaxima};

use ynl_cluster::Cluster;
use ynl_replies::admission::{CellNumbers, partition_of, queue_of};
use ynl_resource::{Hundredths, Label, Path};

/// The queue that a line says is stopped, if the line goes with those before it.
fn stopped_queue(cluster: &Cluster, queue: &Path) -> Option<usize>
    ensures sound { (r : Restored) → r.state ≡ state_in cluster.now
        → is_sound_line cluster.now.config r (Stopped queue.now) ≡ is_some result }
    ensures queue { IfSome result (IsBelowRoot cluster.now queue.now) }
{
    // Opens the inventory, whose rows are sound.
    let _ = cluster.inventory();
    let Some(number) = queue_of(cluster, queue) else {
        return None;
    };
    if number == 0 {
        return None;
    }
    if cluster.is_stopped(number) {
        return None;
    }
    Some(number)
}

/// Takes the line of a queue that is stopped, if it goes with those before it.
pub(crate) fn take_stopped(cluster: &mut Cluster, queue: &Path) -> bool
    ensures { (r : Restored) → r.state ≡ state_in cluster.old
        → Takes cluster.old r (Stopped queue.now) cluster.new result }
{
    match stopped_queue(cluster, queue) {
        Some(number) => {
            cluster.set_stopped(number, true);
            true
        }
        None => false,
    }
}

/// The queue and the partition of a line's maximum, if the line goes with those before it, none of which
/// told a maximum of the two.
fn maximum_cell(
    cluster: &Cluster,
    queue: &Path,
    label: &Label,
    share: Hundredths,
) -> Option<CellNumbers>
    requires { is_accepted cluster.now.config ≡ true }
    ensures sound { (r : Restored)
        → list_any (λ set. same_path set.0 queue.now && same_label set.1 label.now) r.maxima ≡ false
        → is_sound_line cluster.now.config r (Maximum queue.now label.now share)
        ≡ is_some result }
    ensures cell { IfSome result (IsCellBelowRoot cluster.now queue.now label.now) }
{
    let Some(number) = queue_of(cluster, queue) else {
        return None;
    };
    if number == 0 {
        return None;
    }
    if !cluster.config().may_use(queue.names(), label) {
        return None;
    }
    let Some(partition) = partition_of(cluster, label) else {
        return None;
    };
    if share.number() < cluster.capacity_share(partition, number).number() {
        return None;
    }
    Some(CellNumbers {
        partition,
        queue: number,
    })
}

/// Whether a queue and a partition are among some.
fn has_cell(cells: &[CellNumbers], cell: &CellNumbers) -> bool
    ensures { result ≡ list_any (λ told. nat_eq told.queue cell.now.queue && nat_eq told.partition cell.now.partition) cells.now }
{
    cells.iter().any(|told| told.queue == cell.queue && told.partition == cell.partition)
}

/// Takes the line of a maximum, if it goes with those before it, which told the maxima of these queues and
/// partitions, and returns its queue and partition.
pub(crate) fn take_maximum(
    cluster: &mut Cluster,
    told: &[CellNumbers],
    queue: &Path,
    label: &Label,
    share: Hundredths,
) -> Option<CellNumbers>
    requires { is_accepted cluster.old.config ≡ true }
    ensures takes { (r : Restored) → r.state ≡ state_in cluster.old
        → AreMaxima cluster.old.config told.now r.maxima
        → Takes cluster.old r (Maximum queue.now label.now share) cluster.new (is_some result) }
    ensures cell { IfSome result (IsCellBelowRoot cluster.old queue.now label.now) }
{
    // Opens the inventory, whose rows are those of the configuration.
    let _ = cluster.inventory();
    let Some(cell) = maximum_cell(cluster, queue, label, share) else {
        return None;
    };
    if has_cell(told, &cell) {
        return None;
    }
    cluster.set_maximum(cell.partition, cell.queue, share);
    Some(cell)
}

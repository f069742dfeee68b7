//! Queues by their paths, what an operator sets of one, and what is asked about one.

ghost use Rattle.std.specs.Prelude.{◌≡◌, nat_eq, is_some, None, Some, IfErr, IfOk, IfSome};
ghost use Rattle.ynl_resource.specs.Names.{root, same_path};
ghost use Rattle.ynl_resource.specs.Refusals.{first_that_holds};
ghost use Rattle.ynl_model.specs.Events.{reasons};
ghost use Rattle.ynl_model.specs.Queues.{is_queue};
ghost use Rattle.ynl_model.specs.declared.events.Event.TheVariants as event;
ghost use Rattle.ynl_cluster.specs.Cluster.{state_in};
ghost use Rattle.ynl_replies.specs.admission.Named.{IsBelowRoot, IsCellBelowRoot, IsCellOf, IsQueueOf};

use crate::admission::partitions::partition_of;
use ynl_cluster::Cluster;
use ynl_resource::{Hundredths, Label, Path, Refusal};

/// A queue on a partition, each by its number.
#[derive(Clone, Copy)]
pub struct CellNumbers {
    pub partition: u8,
    pub queue: usize,
}

/// The number of the queue of a path, if there is one.
pub fn queue_of(cluster: &Cluster, path: &Path) -> Option<usize>
    ensures some { IfSome result (IsQueueOf cluster.now path.now) }
    ensures known { is_some result ≡ is_queue cluster.now.config path.now }
    ensures root { IfSome result (λ q. same_path path.now root ≡ nat_eq q 0) }
{
    cluster.inventory().layout().find(path.names())
}

/// The queue of which something is set, whether it is stopped or started, or the first reason for
/// which nothing is.
#[tactic(auto, unfolding(ynl_model::specs::Events::reasons))]
pub fn set_stop(cluster: &Cluster, queue: &Path) -> Result<usize, Refusal>
    ensures refused { IfErr result (λ refusal.
        first_that_holds (reasons cluster.now.config (state_in cluster.now)
        (event.Stop queue.now)) ≡ Some refusal) }
    ensures free { IfOk result (λ _.
        first_that_holds (reasons cluster.now.config (state_in cluster.now)
        (event.Stop queue.now)) ≡ None) }
    ensures refused_start { IfErr result (λ refusal.
        first_that_holds (reasons cluster.now.config (state_in cluster.now)
        (event.Start queue.now)) ≡ Some refusal) }
    ensures free_start { IfOk result (λ _.
        first_that_holds (reasons cluster.now.config (state_in cluster.now)
        (event.Start queue.now)) ≡ None) }
    ensures queue { IfOk result (IsBelowRoot cluster.now queue.now) }
{
    let Some(number) = queue_of(cluster, queue) else {
        return Err(Refusal::NoSuchQueue);
    };
    if number == 0 {
        return Err(Refusal::RootQueue);
    }
    Ok(number)
}

/// The queue and the partition for which a maximum is set, or the first reason for which none is.
#[tactic(auto, unfolding(ynl_model::specs::Events::reasons))]
pub fn maximum(
    cluster: &Cluster,
    queue: &Path,
    label: &Label,
    share: Hundredths,
) -> Result<CellNumbers, Refusal>
    ensures refused { IfErr result (λ refusal.
        first_that_holds (reasons cluster.now.config (state_in cluster.now)
        (event.Maximum queue.now label.now share)) ≡ Some refusal) }
    ensures free { IfOk result (λ _.
        first_that_holds (reasons cluster.now.config (state_in cluster.now)
        (event.Maximum queue.now label.now share)) ≡ None) }
    ensures cell { IfOk result (IsCellBelowRoot cluster.now queue.now label.now) }
{
    let Some(number) = queue_of(cluster, queue) else {
        return Err(Refusal::NoSuchQueue);
    };
    if number == 0 {
        return Err(Refusal::RootQueue);
    }
    let Some(partition) = partition_of(cluster, label) else {
        return Err(Refusal::NoSuchLabel);
    };
    if !cluster.config().may_use(queue.names(), label) {
        return Err(Refusal::LabelNotAccessible);
    }
    if share.number() < cluster.capacity_share(partition, number).number() {
        return Err(Refusal::BelowCapacity);
    }
    Ok(CellNumbers {
        partition,
        queue: number,
    })
}

/// The queue and the partition about which is asked, or the first reason for which nothing is told.
#[tactic(auto, unfolding(ynl_model::specs::Events::reasons))]
pub fn usage(cluster: &Cluster, queue: &Path, label: &Label) -> Result<CellNumbers, Refusal>
    ensures refused { IfErr result (λ refusal.
        first_that_holds (reasons cluster.now.config (state_in cluster.now)
        (event.Usage queue.now label.now)) ≡ Some refusal) }
    ensures free { IfOk result (λ _.
        first_that_holds (reasons cluster.now.config (state_in cluster.now)
        (event.Usage queue.now label.now)) ≡ None) }
    ensures cell { IfOk result (IsCellOf cluster.now queue.now label.now) }
{
    let Some(told) = queue_of(cluster, queue) else {
        return Err(Refusal::NoSuchQueue);
    };
    let Some(partition) = partition_of(cluster, label) else {
        return Err(Refusal::NoSuchLabel);
    };
    Ok(CellNumbers {
        partition,
        queue: told,
    })
}

//! A cluster before any event.

ghost use Rattle.std.specs.Prelude.{◌≡◌, [], map, replicate, IfOk};
ghost use Rattle.ynl_model.specs.Nodes.{partition_labels};
ghost use Rattle.ynl_inventory.specs.Opening.{opening_partition};
ghost use Rattle.ynl_inventory.specs.Parts.{partition_row};

use crate::partition::Partition;
use std::alloc::{AllocError, Global};
use ynl_queues::labels::Labels;
use ynl_resource::{HashSeed, Label};
use ynl_tables::containers::Containers;
use ynl_tables::submissions::Submissions;

/// The partition of a label, without containers.
fn partition_of(alloc: Global, labels: &Labels, label: Label) -> Partition
    ensures { partition_row result ≡ opening_partition labels.now label }
{
    let guests = !labels.exclusive(&label);
    let limit = labels.limit(&label);
    Partition {
        label,
        guests,
        limit,
        clock: 0,
        containers: Containers::new(alloc),
    }
}

/// The partitions of a configuration, DEFAULT first, without containers.
pub(crate) fn partitions_of(alloc: Global, labels: &Labels) -> Result<Vec<Partition>, AllocError>
    ensures { IfOk result (λ partitions. map partition_row partitions.items
        ≡ map (opening_partition labels.now) (partition_labels labels.now)) }
{
    let rows = labels.rows();
    let mut partitions = Vec::new(alloc);
    partitions.push(partition_of(alloc, labels, Label::Unlabelled))?;
    for row in rows {
        partitions.push(partition_of(alloc, labels, Label::Named(row.name)))?;
    }
    Ok(partitions)
}

/// No submissions, for each of so many tenants.
pub(crate) fn no_submissions(
    alloc: Global,
    count: usize,
    seed: HashSeed,
) -> Result<Vec<Submissions>, AllocError>
    ensures { IfOk result (λ tenants.
        map (λ listing. listing.entries) tenants.items ≡ replicate count []) }
{
    let mut tenants = Vec::new(alloc);
    for _i in 0..count {
        tenants.push(Submissions::new(alloc, seed))?;
    }
    Ok(tenants)
}

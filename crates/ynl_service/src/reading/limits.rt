//! The limits of leaves on partitions.

ghost use Rattle.std.specs.Prelude.{◌≡◌, ◌<◌};
ghost use Rattle.ynl_resource.specs.Amounts.{nothing};
ghost use Rattle.ynl_model.specs.Limits.{master_limit, user_limit};
ghost use Rattle.ynl_cluster.specs.Cluster.{label_of, path_of, state_in, IsCell};
ghost use Rattle.ynl_search.specs.Leaves.{AreTests};

use crate::place_of;
use crate::reading::cells::below_root;
use ynl_cluster::Cluster;
use ynl_replies::admission::CellNumbers;
use ynl_resource::{Label, Path, Resource, Size};
use ynl_search::{LeafTests, tests_of};

/// Neither memory nor virtual cores.
const NOTHING: Resource = Resource {
    memory: 0,
    vcores: 0,
};

/// What the requests of a queue below root on a partition are tested against, where nothing is free.
fn tests_at(cluster: &Cluster, cell: CellNumbers) -> LeafTests
    requires below_root { 0 < cell.queue }
    requires there { IsCell cluster.now cell.partition cell.queue }
    ensures { AreTests cluster.now.config (state_in cluster.now)
        (label_of cluster.now cell.partition) nothing (path_of cluster.now cell.queue) result }
{
    let place = place_of(cluster, cell.partition, cell.queue, NOTHING);
    tests_of(cluster, cell.partition, &place)
}

/// The user limit of a leaf on a partition, for a request of a size. It is nothing where there is no
/// such queue or no such label.
pub fn user_limit_of(cluster: &Cluster, leaf: &Path, label: &Label, size: &Size) -> Resource
    ensures { result ≡ user_limit cluster.now.config (state_in cluster.now)
        leaf.now label.now size.now }
{
    // Opens the inventory, whose rows are sound.
    let _ = cluster.inventory();
    match below_root(cluster, leaf, label) {
        Some(cell) => tests_at(cluster, cell).limit(size),
        None => NOTHING,
    }
}

/// The master limit of a leaf on a partition. It is nothing where there is no such queue or no such
/// label.
pub fn master_limit_of(cluster: &Cluster, leaf: &Path, label: &Label) -> Resource
    ensures { result ≡ master_limit cluster.now.config (state_in cluster.now)
        leaf.now label.now }
{
    // Opens the inventory, whose rows are sound.
    let _ = cluster.inventory();
    match below_root(cluster, leaf, label) {
        Some(cell) => tests_at(cluster, cell).master_limit(),
        None => NOTHING,
    }
}

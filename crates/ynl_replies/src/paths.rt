//! Queues by their paths.

ghost use Rattle.std.specs.Prelude.{◌≡◌, ◌<◌};
ghost use Rattle.ynl_inventory.specs.layout.Paths.{HasNumber};
ghost use Rattle.ynl_cluster.specs.Cluster.{path_of};

use ynl_cluster::Cluster;
use ynl_resource::Path;

/// The path of a queue below root.
pub fn path_of(cluster: &Cluster, queue: usize) -> Path
    requires below_root { 0 < queue }
    requires there { HasNumber cluster.now.rows.paths queue }
    ensures { result ≡ path_of cluster.now queue }
{
    // Opens the inventory, whose rows are those of the configuration.
    let _ = cluster.inventory();
    cluster.config().row_at(queue - 1).path
}

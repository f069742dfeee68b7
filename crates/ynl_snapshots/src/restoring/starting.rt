//! The cluster before any line: as a configuration opens it, but with all queues running.

ghost use Rattle.std.specs.Prelude.{◌≡◌, false, map, IfOk};
ghost use Rattle.ynl_model.specs.declared.queues.StopRow.{StopRow};
ghost use Rattle.ynl_cluster.specs.Cluster.{state_in};
ghost use Rattle.ynl_saved.specs.Restoring.{nothing_restored};

use std::alloc::{AllocError, Global};
use ynl_cluster::Cluster;
use ynl_queues::Config;

/// All queues are started.
fn start_all(cluster: &mut Cluster)
    ensures config { cluster.new.config ≡ cluster.old.config }
    ensures state { state_in cluster.new ≡ record (state_in cluster.old) {
      stops = map (λ (row : StopRow). record row { stopped = false }) (state_in cluster.old).stops;
    } }
{
    // Opens the inventory, whose rows are those of the configuration.
    let _ = cluster.inventory();
    for i in 0..cluster.config().queues().len() {
        cluster.set_stopped(i + 1, false);
    }
}

/// The cluster of a configuration before any line. It fails if memory is refused, and where there are more
/// labels or queues than numbers, as `Cluster::new` does.
pub(crate) fn nothing_restored(alloc: Global, config: Config) -> Result<Cluster, AllocError>
    ensures config { IfOk result (λ cluster. cluster.config ≡ config) }
    ensures state { IfOk result (λ cluster. state_in cluster ≡ (nothing_restored config).state) }
{
    let mut cluster = Cluster::new(alloc, config)?;
    start_all(&mut cluster);
    Ok(cluster)
}

//! What is set of queues is told.

ghost use Rattle.std.specs.Prelude.{◌≡◌, ◌<◌, ◌-◌, flat_map, slice_get, IsSome, Some};
ghost use Rattle.ynl_model.specs.declared.queues.StopRow.{StopRow};
ghost use Rattle.ynl_inventory.specs.layout.Paths.{HasNumber};
ghost use Rattle.ynl_cluster.specs.Cluster.{label_of, path_of, state_in, IsCell};
ghost use Rattle.ynl_saved.specs.Handing.{Hands};
ghost use Rattle.ynl_saved.specs.Saving.{maxima_lines, maximum_lines, stop_lines};

use ynl_cluster::Cluster;
use ynl_replies::path_of;
use ynl_saved::{LineSink, StateLine};

/// A queue is told, if it is stopped.
fn hand_stop<S: LineSink>(cluster: &Cluster, queue: usize, sink: &mut S) -> Result<(), S::Fault>
    requires below_root { 0 < queue }
    requires there { HasNumber cluster.now.rows.paths queue }
    ensures there { IsSome (slice_get (state_in cluster.now).stops (queue - 1)) }
    ensures told { (row : StopRow)
        → slice_get (state_in cluster.now).stops (queue - 1) ≡ Some row
        → Hands S.gives sink.old (stop_lines row) sink.new result }
{
    if !cluster.is_stopped(queue) {
        return Ok(());
    }
    sink.take(&StateLine::Stopped {
        queue: path_of(cluster, queue),
    })
}

/// The queues are told that are stopped.
pub(crate) fn hand_stops<S: LineSink>(cluster: &Cluster, sink: &mut S) -> Result<(), S::Fault>
    ensures { Hands S.gives sink.old (flat_map stop_lines (state_in cluster.now).stops)
        sink.new result }
{
    // Opens the inventory, whose rows are those of the configuration.
    let _ = cluster.inventory();
    for i in 0..cluster.config().queues().len() {
        hand_stop(cluster, i + 1, sink)?;
    }
    Ok(())
}

/// The maximum of a queue on a partition is told, if it is not the configured one.
fn hand_maximum<S: LineSink>(
    cluster: &Cluster,
    p: u8,
    queue: usize,
    sink: &mut S,
) -> Result<(), S::Fault>
    requires below_root { 0 < queue }
    requires there { IsCell cluster.now p queue }
    ensures { Hands S.gives sink.old (maximum_lines cluster.now.config
        (state_in cluster.now).maxima (path_of cluster.now queue) (label_of cluster.now p))
        sink.new result }
{
    let path = path_of(cluster, queue);
    let label = *cluster.inventory().label(p);
    let maximum = cluster.maximum_share(p, queue);
    if maximum == cluster.config().configured_maximum(path.names(), &label) {
        return Ok(());
    }
    sink.take(&StateLine::Maximum {
        queue: path,
        label,
        maximum,
    })
}

/// The maxima of a queue are told that are not the configured ones.
fn hand_maxima_of<S: LineSink>(
    cluster: &Cluster,
    queue: usize,
    sink: &mut S,
) -> Result<(), S::Fault>
    requires below_root { 0 < queue }
    requires there { HasNumber cluster.now.rows.paths queue }
    ensures { Hands S.gives sink.old (maxima_lines cluster.now.config
        (state_in cluster.now).maxima (path_of cluster.now queue)) sink.new result }
{
    for p in 0..cluster.inventory().partition_count() {
        hand_maximum(cluster, p as u8, queue, sink)?;
    }
    Ok(())
}

/// All maxima are told that are not the configured ones.
pub(crate) fn hand_maxima<S: LineSink>(cluster: &Cluster, sink: &mut S) -> Result<(), S::Fault>
    ensures { Hands S.gives sink.old (flat_map
        (λ row. maxima_lines cluster.now.config (state_in cluster.now).maxima row.path)
        cluster.now.config.queues) sink.new result }
{
    // Opens the inventory, whose rows are those of the configuration.
    let _ = cluster.inventory();
    for i in 0..cluster.config().queues().len() {
        hand_maxima_of(cluster, i + 1, sink)?;
    }
    Ok(())
}

//! Partitions and nodes are told.

ghost use Rattle.std.specs.Prelude.{map};
ghost use Rattle.ynl_cluster.specs.Cluster.{state_in};
ghost use Rattle.ynl_saved.specs.declared.lines.StateLine.TheVariants.{Node as NodeLine};
ghost use Rattle.ynl_saved.specs.Handing.{Hands};
ghost use Rattle.ynl_saved.specs.Saving.{partition_line};

use crate::saving::lines::partition_line;
use ynl_cluster::Cluster;
use ynl_replies::node_at;
use ynl_saved::{LineSink, StateLine};

/// All partitions are told.
pub(crate) fn hand_partitions<S: LineSink>(cluster: &Cluster, sink: &mut S) -> Result<(), S::Fault>
    ensures { Hands S.gives sink.old (map partition_line (state_in cluster.now).partitions)
        sink.new result }
{
    for p in 0..cluster.inventory().partition_count() {
        sink.take(&partition_line(cluster, p as u8))?;
    }
    Ok(())
}

/// All nodes are told, in the order of joining.
pub(crate) fn hand_nodes<S: LineSink>(cluster: &Cluster, sink: &mut S) -> Result<(), S::Fault>
    ensures { Hands S.gives sink.old (map NodeLine (state_in cluster.now).nodes) sink.new result }
{
    let inventory = cluster.inventory();
    let mut next = inventory.first_node();
    while let Some(number) = next {
        sink.take(&StateLine::Node(node_at(cluster, number)))?;
        next = inventory.next_node(number);
    }
    Ok(())
}

//! Containers are told, partition by partition.

ghost use Rattle.std.specs.Prelude.{flat_map, map};
ghost use Rattle.ynl_inventory.specs.Apps.{containers_of};
ghost use Rattle.ynl_inventory.specs.Meaning.{placed_of};
ghost use Rattle.ynl_inventory.specs.Sound.{HasPartition};
ghost use Rattle.ynl_cluster.specs.Cluster.{label_of, state_in};
ghost use Rattle.ynl_saved.specs.declared.lines.StateLine.TheVariants.{Container as ContainerLine};
ghost use Rattle.ynl_saved.specs.Handing.{Hands};

use ynl_cluster::Cluster;
use ynl_saved::{LineSink, StateLine};

/// The containers of a partition are told, in the order of placement.
fn hand_placed<S: LineSink>(cluster: &Cluster, p: u8, sink: &mut S) -> Result<(), S::Fault>
    requires { HasPartition cluster.now.rows p }
    ensures { Hands S.gives sink.old (map ContainerLine
        (map (λ e. placed_of cluster.now.rows (label_of cluster.now p) e.1)
        (containers_of cluster.now.rows p))) sink.new result }
{
    let inventory = cluster.inventory();
    let mut next = inventory.first_container(p);
    while let Some(number) = next {
        sink.take(&StateLine::Container(inventory.placed(p, number)))?;
        next = inventory.next_container(p, number);
    }
    Ok(())
}

/// All containers are told.
pub(crate) fn hand_containers<S: LineSink>(cluster: &Cluster, sink: &mut S) -> Result<(), S::Fault>
    ensures { Hands S.gives sink.old
        (flat_map (λ row. map ContainerLine row.containers) (state_in cluster.now).partitions)
        sink.new result }
{
    for p in 0..cluster.inventory().partition_count() {
        hand_placed(cluster, p as u8, sink)?;
    }
    Ok(())
}

//! What lines tell of nodes.

ghost use Rattle.std.specs.Prelude.{◌≡◌, is_some, true, IfOk, IfSome};
ghost use Rattle.std.specs.List.{list_any};
ghost use Rattle.ynl_resource.specs.Names.{same_label};
ghost use Rattle.ynl_model.specs.Nodes.{has_label};
ghost use Rattle.ynl_cluster.specs.Cluster.{state_in};
ghost use Rattle.ynl_saved.specs.declared.lines.StateLine.TheVariants.{Node as NodeLine};
ghost use Rattle.ynl_saved.specs.Restoring.{is_sound_line, Restored};
ghost use Rattle.ynl_snapshots.specs.restoring.Taking.{Joins, Takes};

use std::alloc::AllocError;
use ynl_cluster::Cluster;
use ynl_model::Node;
use ynl_replies::admission::partition_of;

/// The partition that a line's node joins and what its clock shows, if the line goes with those before
/// it, one of which told the partition.
fn joined_partition(cluster: &Cluster, node: &Node) -> Option<u8>
    ensures sound { (r : Restored) → r.state ≡ state_in cluster.now
        → list_any (same_label node.now.label) r.partitions ≡ true
        → has_label cluster.now.config.labels node.now.label ≡ true
        → is_sound_line cluster.now.config r (NodeLine node.now) ≡ is_some result }
    ensures joins { IfSome result (Joins cluster.now node.now) }
{
    let Some(p) = partition_of(cluster, &node.label) else {
        return None;
    };
    let inventory = cluster.inventory();
    if inventory.find_node(&node.name).is_some() {
        return None;
    }
    if cluster.is_full(p) {
        return None;
    }
    if node.stamp == 0 {
        return None;
    }
    if inventory.clock(p) < node.stamp {
        return None;
    }
    Some(p)
}

/// Takes the line of a node, if it goes with those before it, one of which told its partition. It fails
/// if memory is refused.
pub(crate) fn take_node(cluster: &mut Cluster, node: &Node) -> Result<bool, AllocError>
    ensures { IfOk result (λ taken. (r : Restored) → r.state ≡ state_in cluster.old
        → list_any (same_label node.now.label) r.partitions ≡ true
        → has_label cluster.old.config.labels node.now.label ≡ true
        → Takes cluster.old r (NodeLine node.now) cluster.new taken) }
{
    let Some(p) = joined_partition(cluster, node) else {
        return Ok(false);
    };
    let clock = cluster.inventory().clock(p);
    let number = cluster.join(&node.name, p, node.size)?;
    // The clock rose as the node joined, and was its stamp.
    cluster.set_clock(p, clock);
    cluster.set_stamp(number, node.stamp);
    Ok(true)
}

//! What lines tell of partitions: how far their clocks stand.

ghost use Rattle.std.specs.Prelude.{◌≡◌, false, []};
ghost use Rattle.std.specs.List.{list_any};
ghost use Rattle.ynl_resource.specs.Names.{same_label};
ghost use Rattle.ynl_model.specs.Nodes.{nodes_of};
ghost use Rattle.ynl_cluster.specs.Cluster.{state_in};
ghost use Rattle.ynl_saved.specs.declared.lines.StateLine.TheVariants.{Partition};
ghost use Rattle.ynl_saved.specs.Restoring.{Restored};
ghost use Rattle.ynl_snapshots.specs.restoring.Taking.{Takes};

use ynl_cluster::Cluster;
use ynl_replies::admission::partition_of;
use ynl_resource::Label;

/// Takes the line of a partition that had none and where no node stands, if it goes with those before it.
pub(crate) fn take_partition(cluster: &mut Cluster, label: &Label, clock: u64) -> bool
    requires { nodes_of (state_in cluster.old).nodes label.now ≡ [] }
    ensures { (r : Restored) → r.state ≡ state_in cluster.old
        → list_any (same_label label.now) r.partitions ≡ false
        → Takes cluster.old r (Partition label.now clock) cluster.new result }
{
    let Some(p) = partition_of(cluster, label) else {
        return false;
    };
    if cluster.config().labels().limit(label) < clock {
        return false;
    }
    // Opens the inventory, whose rows are sound.
    let _ = cluster.inventory();
    cluster.set_clock(p, clock);
    true
}

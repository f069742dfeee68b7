//! The queues on the way to a leaf and the leaf's limits, as they are copied.

ghost use Rattle.std.specs.Prelude.{◌≡◌, ◌<◌, length, OnOk};
ghost use Rattle.ynl_resource.specs.Names.{root};
ghost use Rattle.ynl_inventory.specs.Sound.{HasPartition};
ghost use Rattle.ynl_cluster.specs.Cluster.{label_of, path_of, state_in, IsCell};
ghost use Rattle.ynl_sights.specs.Copying.{AddsAll, AreLimitsOf, IsAt, IsQueueOf};
ghost use Rattle.ynl_sights.specs.Rows.{reach_in};
ghost use Rattle.ynl_sights.specs.Sights.{reach_of};

use crate::rows::{Limits, Margin, QueueSight};
use std::alloc::AllocError;
use ynl_cluster::Cluster;
use ynl_resource::Resource;
use ynl_search::{Place, child_at, root_at, tests_of};

/// The place of root.
pub(crate) fn start(cluster: &Cluster, p: u8) -> Place
    requires { HasPartition cluster.now.rows p }
    ensures { IsAt cluster.now p 0 result }
{
    let nothing = Resource {
        memory: 0,
        vcores: 0,
    };
    root_at(cluster, p, nothing)
}

/// A queue on the way to a leaf.
fn queue_at(cluster: &Cluster, p: u8, queue: usize, place: &Place) -> QueueSight
    requires there { IsCell cluster.now p queue }
    requires below_root { 0 < queue }
    requires place { IsAt cluster.now p queue place.now }
    ensures { IsQueueOf cluster.now p (path_of cluster.now queue) result }
{
    let used = cluster.used(p, queue).used;
    let name = cluster.inventory().layout().name(queue);
    QueueSight {
        margin: Margin {
            used,
            maximum: place.most,
        },
        guaranteed: place.guaranteed.memory,
        name,
    }
}

/// Adds the queues on the way to a leaf. The place becomes the leaf's.
pub(crate) fn add_queues(
    cluster: &Cluster,
    p: u8,
    leaf: usize,
    place: &mut Place,
    queues: &mut Vec<QueueSight>,
) -> Result<(), AllocError>
    requires there { IsCell cluster.now p leaf }
    requires below_root { 0 < leaf }
    requires place { IsAt cluster.now p 0 place.old }
    ensures queues { OnOk result (AddsAll cluster.now p leaf queues.old.items queues.new.items) }
    ensures some { OnOk result (length queues.old.items < length queues.new.items) }
    ensures place { OnOk result (IsAt cluster.now p leaf place.new) }
{
    let inventory = cluster.inventory();
    let line = inventory.layout().line(leaf);
    for depth in 0..line.len() - 1 {
        let queue = line[depth + 1];
        *place = child_at(cluster, p, place, queue);
        queues.push(queue_at(cluster, p, queue, place))?;
    }
    Ok(())
}

/// What the requests of a leaf are tested against, where the leaf was reached.
pub(crate) fn limits_of(cluster: &Cluster, p: u8, leaf: usize, place: &Place) -> Limits
    requires there { IsCell cluster.now p leaf }
    requires below_root { 0 < leaf }
    requires place { IsAt cluster.now p leaf place.now }
    ensures { AreLimitsOf cluster.now p leaf result }
{
    let tests = tests_of(cluster, p, place);
    Limits {
        users: tests.limits(),
        masters: tests.masters(),
        master_limit: tests.master_limit(),
        no_master: !tests.has_master(),
    }
}

/// What root uses of a partition, and all that is there.
pub(crate) fn margin_of_root(cluster: &Cluster, p: u8) -> Margin
    requires { HasPartition cluster.now.rows p }
    ensures { reach_in result ≡ reach_of (state_in cluster.now) (label_of cluster.now p) root }
{
    Margin {
        used: cluster.used(p, 0).used,
        maximum: cluster.total(p),
    }
}

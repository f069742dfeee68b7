//! The lanes of leaves, and the least that waits there.

ghost use Rattle.std.specs.Prelude.{◌≡◌};
ghost use Rattle.ynl_resource.specs.Amounts.{smaller_of};
ghost use Rattle.ynl_resource.specs.declared.labels.Label.TheVariants.{Unlabelled};
ghost use Rattle.ynl_model.specs.Service.{asks_for, items_for};
ghost use Rattle.ynl_inventory.specs.Sound.{IsLeaf, IsSound};
ghost use Rattle.ynl_cluster.specs.Cluster.{IsCell, label_of, path_of, state_in};
ghost use Rattle.ynl_search.specs.notes.Lanes.{IsLaneOf};
ghost use Rattle.ynl_search.specs.notes.Shut.{AreAtLeast};

use ynl_cluster::Cluster;
use ynl_lanes::lane::{Kind, Lane};
use ynl_resource::Resource;

/// The lane of a leaf on a partition.
pub fn lane_of(cluster: &Cluster, p: u8, leaf: usize) -> &Lane
    requires { IsCell cluster.now p leaf }
    ensures lane { IsLaneOf cluster.now.rows p leaf result.now.seats }
    ensures sound { IsSound cluster.now.rows }
{
    cluster.lane(p, leaf)
}

/// The less of two amounts, in memory and in virtual cores.
pub fn less_of(a: Resource, b: Resource) -> Resource
    ensures { result ≡ smaller_of a b }
{
    Resource {
        memory: a.memory.min(b.memory),
        vcores: a.vcores.min(b.vcores),
    }
}

/// What each request of a leaf on a partition is for at least.
pub fn least_in(cluster: &Cluster, p: u8, leaf: usize) -> Resource
    requires cell { IsCell cluster.now p leaf }
    requires leaf { IsLeaf cluster.now.rows leaf }
    ensures { AreAtLeast (items_for (state_in cluster.now) (label_of cluster.now p))
        (path_of cluster.now leaf) result }
{
    let lane = lane_of(cluster, p, leaf);
    let masters = lane.least(Kind::Master).amount();
    let asks = lane.least(Kind::Ask).amount();
    less_of(masters, asks)
}

/// What each ask of a leaf for DEFAULT is for at least.
pub fn least_asked(cluster: &Cluster, leaf: usize) -> Resource
    requires cell { IsCell cluster.now 0 leaf }
    requires leaf { IsLeaf cluster.now.rows leaf }
    ensures { AreAtLeast (asks_for (state_in cluster.now) Unlabelled)
        (path_of cluster.now leaf) result }
{
    lane_of(cluster, 0, leaf).least(Kind::Ask).amount()
}

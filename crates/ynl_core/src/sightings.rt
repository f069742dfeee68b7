//! What is seen of a cluster for a choice on a node.

ghost use Rattle.std.specs.Prelude.{IfOk};
ghost use Rattle.ynl_cluster.specs.Cluster.{state_in};
ghost use Rattle.ynl_sights.specs.Lists.{AreListsOf};
ghost use Rattle.ynl_core.specs.Sightings.{IsSighting};

use crate::memory::NoMemory;
use std::alloc::Global;
use ynl_cluster::Cluster;
use ynl_replies::admission::placing;
use ynl_resource::{Name, Refusal};
use ynl_sights::{LeafLists, Sight};

/// What is seen of a cluster for a choice on a node: a copy of what the choice reads, or the first reason for which nothing may
/// be placed there.
pub enum Sighted {
    Refused(Refusal),
    Seen(Sight),
}

// By hand, so that crates above call it: one that is derived is proved anew in each of them, with all that it holds.
impl Drop for Sighted {
    fn drop(self) {
        match self {
            Sighted::Refused(_) => {}
            Sighted::Seen(_) => {}
        }
    }
}

/// What is seen of a cluster for a choice on the node, with the lists that are kept. `Err` only if memory is refused.
#[tactic(auto, unfolding(ynl_model::specs::Events::reasons))]
pub(crate) fn look(
    alloc: Global,
    cluster: &Cluster,
    lists: &mut LeafLists,
    node: &Name,
) -> Result<Sighted, NoMemory>
    requires { AreListsOf cluster.now.rows lists.old }
    ensures sighting { IfOk result (IsSighting (record { config = cluster.now.config; state = state_in cluster.now }) node.now) }
    ensures lists { AreListsOf cluster.now.rows lists.new }
{
    let node = match placing(cluster, node) {
        Ok(node) => node,
        Err(refusal) => return Ok(Sighted::Refused(refusal)),
    };
    Ok(Sighted::Seen(Sight::copy(alloc, cluster, lists, node)?))
}

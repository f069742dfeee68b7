//! What is proposed for a node.

ghost use Rattle.std.specs.Prelude.{◌≡◌, Some, nat_eq};
ghost use Rattle.std.specs.Map.{lookup};
ghost use Rattle.ynl_model.specs.Check.{proposed};
ghost use Rattle.ynl_slots.specs.Slots.{IsLive};
ghost use Rattle.ynl_inventory.specs.Rows.{NodeRow};
ghost use Rattle.ynl_inventory.specs.Meaning.{node_of};
ghost use Rattle.ynl_cluster.specs.Cluster.{state_in};
ghost use Rattle.ynl_search.specs.notes.Shut.{AreShut};
ghost use Rattle.ynl_search.specs.Choosing.{IsNamed};
ghost use Rattle.ynl_service.specs.Proposals.{IsProposal};

use ynl_cluster::Cluster;
use ynl_model::Proposal;
use ynl_search::notes::Shut;
use ynl_search::{Found, choose};

/// What is there to be placed on a node, as a proposal.
fn proposal(cluster: &Cluster, node: u32, found: &Found) -> Proposal
    requires live { IsLive node cluster.now.rows.nodes }
    requires named { IsNamed cluster.now.rows found.now }
    ensures { IsProposal cluster.now node found.now result }
{
    let inventory = cluster.inventory();
    let row = inventory.node(node);
    let app = inventory.app(found.app);
    Proposal {
        node: row.name,
        stamp: row.stamp,
        tenant: inventory.tenant_name(app.tenant),
        app: *inventory.app_name(found.app),
        what: inventory.what(found.role),
        size: found.size,
    }
}

/// What is placed next on a node, as a proposal. It does not look at the clock.
pub fn proposed(cluster: &Cluster, shut: &mut Shut, node: u32) -> Option<Proposal>
    requires live { IsLive node cluster.now.rows.nodes }
    requires shut { AreShut cluster.now shut.old }
    ensures value { (row : NodeRow) → lookup (nat_eq node) cluster.now.rows.nodes ≡ Some row
        → result ≡ proposed cluster.now.config (state_in cluster.now)
        (node_of cluster.now.rows.partitions row) }
    ensures shut { AreShut cluster.now shut.new }
{
    let found = choose(cluster, shut, node)?;
    Some(proposal(cluster, node, &found))
}

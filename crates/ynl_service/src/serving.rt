//! Heartbeats.

ghost use Rattle.std.specs.Prelude.{◌≡◌, ◌+◌, ◌<◌, ◌≤◌, ◌++◌, ◌∷◌, [], IfSome, IsFalse, IsTrue, length};
ghost use Rattle.std.specs.Vec.{vec_capacity};
ghost use Rattle.ynl_model.specs.declared.nodes.Node.{Node};
ghost use Rattle.ynl_laws.specs.Working.{IsWorking};
ghost use Rattle.ynl_slots.specs.Slots.{IsLive};
ghost use Rattle.ynl_inventory.specs.Sound.{IsSound};
ghost use Rattle.ynl_cluster.specs.Cluster.{state_in};
ghost use Rattle.ynl_search.specs.notes.Shut.{AreShut};
ghost use Rattle.ynl_service.specs.Serving.{CanBePlaced, HasRoom, IsNext, IsNode, IsNoStep, IsServed, IsStep};

use ynl_cluster::Cluster;
use ynl_inventory::Placement;
use ynl_model::Placed;
use ynl_resource::Id;
use ynl_search::notes::{Shut, place};
use ynl_search::{Found, choose};

/// What is placed next on a node: nothing where the clock of its partition is spent.
fn next(cluster: &Cluster, shut: &mut Shut, node: u32) -> Option<Found>
    requires live { IsLive node cluster.now.rows.nodes }
    requires shut { AreShut cluster.now shut.old }
    ensures next { IsNext cluster.now node result }
    ensures can { IfSome result (CanBePlaced cluster.now node) }
    ensures shut { AreShut cluster.now shut.new }
    ensures sound { IsSound cluster.now.rows }
    ensures rooms { length cluster.now.rooms ≡ length cluster.now.rows.partitions }
{
    let inventory = cluster.inventory();
    let p = inventory.node(node).partition;
    if inventory.is_spent(p) {
        return None;
    }
    choose(cluster, shut, node)
}

/// A container comes last in a list that has room for it.
fn tell(list: &mut Vec<Placed>, placed: &Placed)
    requires { length list.old.items < vec_capacity list.old }
    ensures items { list.new.items ≡ list.old.items ++ placed.now ∷ [] }
    ensures capacity { vec_capacity list.new ≡ vec_capacity list.old }
{
    list.push_reserved(Placed {
        id: Id {
            label: placed.id.label,
            clock: placed.id.clock,
        },
        node: placed.node,
        tenant: placed.tenant,
        app: placed.app,
        what: placed.what,
        size: placed.size,
    });
}

/// The next request is placed on a node, if there is one, and told after what the list holds.
/// Whether there was one.
fn serve_one(cluster: &mut Cluster, shut: &mut Shut, node: u32, placed: &mut Vec<Placed>) -> bool
    requires live { IsLive node cluster.old.rows.nodes }
    requires working { IsWorking cluster.old.config (state_in cluster.old) }
    requires shut { AreShut cluster.old shut.old }
    requires room { HasRoom cluster.old node 1 }
    requires list { length placed.old.items + 1 ≤ vec_capacity placed.old }
    ensures config { cluster.new.config ≡ cluster.old.config }
    ensures one { IsTrue result → IsStep cluster.old cluster.new node
        placed.old.items placed.new.items }
    ensures none { IsFalse result → IsNoStep cluster.old cluster.new node
        placed.old.items placed.new.items }
    ensures capacity { vec_capacity placed.new ≡ vec_capacity placed.old }
    ensures shut { AreShut cluster.new shut.new }
{
    let Some(found) = next(cluster, shut, node) else {
        return false;
    };
    let placement = Placement {
        node,
        app: found.app,
        role: found.role,
        size: found.size,
    };
    tell(placed, &place(cluster, shut, &placement));
    true
}

/// A heartbeat of a node: the next request is placed there, again and again, so many times at most.
/// What is placed is told after what the list holds. It takes no memory.
pub fn serve(
    cluster: &mut Cluster,
    shut: &mut Shut,
    node: u32,
    times: u32,
    placed: &mut Vec<Placed>,
)
    requires live { IsLive node cluster.old.rows.nodes }
    requires working { IsWorking cluster.old.config (state_in cluster.old) }
    requires shut { AreShut cluster.old shut.old }
    requires room { HasRoom cluster.old node times }
    requires list { length placed.old.items + times ≤ vec_capacity placed.old }
    ensures config { cluster.new.config ≡ cluster.old.config }
    ensures served { (of : Node) → IsNode cluster.old node of → IsServed cluster.old cluster.new
        of times placed.old.items placed.new.items }
    ensures shut { AreShut cluster.new shut.new }
{
    let mut left = times;
    while left > 0 {
        if !serve_one(cluster, shut, node, placed) {
            return;
        }
        left -= 1;
    }
}

//! Lists of nodes and of containers.

ghost use Rattle.std.specs.Prelude.{◌≡◌, ◌++◌, ◌∷◌, [], nat_eq, IfOk, OnOk, IfSome, IsSome, Some};
ghost use Rattle.std.specs.Map.{lookup};
ghost use Rattle.ynl_model.specs.Changes.{own_containers};
ghost use Rattle.ynl_model.specs.Cluster.{containers_on};
ghost use Rattle.ynl_slots.specs.Slots.{IsLive};
ghost use Rattle.ynl_inventory.specs.Rows.{AppRow, NodeRow};
ghost use Rattle.ynl_inventory.specs.Meaning.{node_of, placed_of};
ghost use Rattle.ynl_inventory.specs.Parts.{held_at};
ghost use Rattle.ynl_inventory.specs.Sound.{HasPartition};
ghost use Rattle.ynl_cluster.specs.Cluster.{label_of, name_in, state_in, tenant_in};

use std::alloc::{AllocError, Global};
use ynl_cluster::Cluster;
use ynl_model::{Node, Placed};
use ynl_resource::Id;

/// The node under a number.
pub fn node_at(cluster: &Cluster, node: u32) -> Node
    requires { IsLive node cluster.now.rows.nodes }
    ensures { (row : NodeRow) → lookup (nat_eq node) cluster.now.rows.nodes ≡ Some row
        → result ≡ node_of cluster.now.rows.partitions row }
{
    let inventory = cluster.inventory();
    let row = inventory.node(node);
    Node {
        name: row.name,
        label: *inventory.label(row.partition),
        size: row.size,
        stamp: row.stamp,
    }
}

/// A node comes last.
fn add_node(list: &mut Vec<Node>, node: &Node) -> Result<(), AllocError>
    ensures { OnOk result (list.new.items ≡ list.old.items ++ node.now ∷ []) }
{
    // Field by field: `*node` is a copy that Rattle does not prove here, by a fault of its own.
    list.push(Node {
        name: node.name,
        label: node.label,
        size: node.size,
        stamp: node.stamp,
    })?;
    Ok(())
}

/// The nodes, in the order of joining. It fails if memory is refused.
pub fn nodes(alloc: Global, cluster: &Cluster) -> Result<Vec<Node>, AllocError>
    ensures { IfOk result (λ list. list.items ≡ (state_in cluster.now).nodes) }
{
    let inventory = cluster.inventory();
    let mut list = Vec::new(alloc);
    let mut next = inventory.first_node();
    while let Some(number) = next {
        add_node(&mut list, &node_at(cluster, number))?;
        next = inventory.next_node(number);
    }
    Ok(list)
}

/// The container under a number in a partition.
pub fn placed_at(cluster: &Cluster, p: u8, number: u32) -> Placed
    requires { IsSome (held_at cluster.now.rows p number) }
    ensures { IfSome (held_at cluster.now.rows p number) (λ c.
        result ≡ placed_of cluster.now.rows (label_of cluster.now p) c) }
{
    cluster.inventory().placed(p, number)
}

/// A container comes last.
fn add(list: &mut Vec<Placed>, placed: &Placed) -> Result<(), AllocError>
    ensures { OnOk result (list.new.items ≡ list.old.items ++ placed.now ∷ []) }
{
    list.push(Placed {
        id: Id {
            label: placed.id.label,
            clock: placed.id.clock,
        },
        node: placed.node,
        tenant: placed.tenant,
        app: placed.app,
        what: placed.what,
        size: placed.size,
    })?;
    Ok(())
}

/// The containers of a partition, in the order of placement. It fails if memory is refused.
pub fn containers(alloc: Global, cluster: &Cluster, p: u8) -> Result<Vec<Placed>, AllocError>
    requires { HasPartition cluster.now.rows p }
    ensures { IfOk result (λ list.
        list.items ≡ containers_on (state_in cluster.now) (label_of cluster.now p)) }
{
    let inventory = cluster.inventory();
    let held = inventory.containers(alloc, p)?;
    let mut list = Vec::new(alloc);
    for container in &held {
        add(&mut list, &inventory.told(p, container))?;
    }
    Ok(list)
}

/// The containers of an application in a partition, in the order of placement. It fails if memory
/// is refused, and goes over no others.
pub fn own_containers(
    alloc: Global,
    cluster: &Cluster,
    app: u32,
    p: u8,
) -> Result<Vec<Placed>, AllocError>
    requires live { IsLive app cluster.now.rows.apps }
    requires partition { HasPartition cluster.now.rows p }
    ensures { IfOk result (λ list. (row : AppRow)
        → lookup (nat_eq app) cluster.now.rows.apps ≡ Some row
        → list.items ≡ own_containers (state_in cluster.now) (tenant_in cluster.now.rows row)
        (name_in cluster.now.rows row) (label_of cluster.now p)) }
{
    let inventory = cluster.inventory();
    let mut list = Vec::new(alloc);
    let mut next = inventory.first_of_app(app, p);
    while let Some(number) = next {
        add(&mut list, &inventory.placed(p, number))?;
        next = inventory.next_of_app(p, number);
    }
    Ok(list)
}

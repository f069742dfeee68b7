//! Partitions and nodes, and what is chosen on a node.

ghost use Rattle.std.specs.Prelude.{◌≡◌, ◌++◌, ◌∷◌, [], nat_eq, IfOk, OnOk, Some};
ghost use Rattle.std.specs.List.{Contains};
ghost use Rattle.std.specs.Map.{lookup};
ghost use Rattle.ynl_model.specs.Check.{proposed};
ghost use Rattle.ynl_model.specs.Cluster.{is_spent};
ghost use Rattle.ynl_model.specs.Nodes.{partition_labels};
ghost use Rattle.ynl_model.specs.Service.{takes_guests};
ghost use Rattle.ynl_slots.specs.Slots.{IsLive};
ghost use Rattle.ynl_inventory.specs.Rows.{NodeRow};
ghost use Rattle.ynl_inventory.specs.Meaning.{node_of};
ghost use Rattle.ynl_cluster.specs.Cluster.{state_in};
ghost use Rattle.ynl_waits.specs.Grounds.{all_spots, spot};
ghost use Rattle.ynl_service.specs.reading.Readings.{IsNodeHere};

use crate::proposed;
use std::alloc::{AllocError, Global};
use ynl_cluster::Cluster;
use ynl_model::{Node, Proposal};
use ynl_queues::Config;
use ynl_replies::admission::{node_named, partition_of};
use ynl_resource::Label;
use ynl_search::notes::Shut;
use ynl_waits::Spot;

/// The labels of all partitions: DEFAULT first, then as configured.
pub(crate) fn labels_of(alloc: Global, config: &Config) -> Result<Vec<Label>, AllocError>
    ensures { IfOk result (λ labels. labels.items ≡ partition_labels config.now.labels) }
{
    let mut labels = Vec::new(alloc);
    labels.push(Label::Unlabelled)?;
    for row in config.labels().rows() {
        labels.push(Label::Named(row.name))?;
    }
    Ok(labels)
}

/// Whether a partition takes guests: it is not exclusive, and not DEFAULT.
pub(crate) fn takes_guests(config: &Config, label: &Label) -> bool
    ensures { result ≡ takes_guests config.now label.now }
{
    match label {
        Label::Unlabelled => false,
        Label::Named(_) => !config.labels().exclusive(label),
    }
}

/// Whether the clock of a partition stands at its limit. That of an unknown label is 0.
pub(crate) fn is_spent(cluster: &Cluster, label: &Label) -> bool
    ensures { result ≡ is_spent cluster.now.config.labels (state_in cluster.now) label.now }
{
    let inventory = cluster.inventory();
    match partition_of(cluster, label) {
        Some(p) => inventory.is_spent(p),
        None => true,
    }
}

/// A node, with what is free on it.
fn spot_of(cluster: &Cluster, node: u32) -> Spot
    requires { IsLive node cluster.now.rows.nodes }
    ensures { (row : NodeRow) → lookup (nat_eq node) cluster.now.rows.nodes ≡ Some row
        → result ≡ spot (state_in cluster.now) (node_of cluster.now.rows.partitions row) }
{
    let inventory = cluster.inventory();
    let row = inventory.node(node);
    Spot {
        node: Node {
            name: row.name,
            label: *inventory.label(row.partition),
            size: row.size,
            stamp: row.stamp,
        },
        free: inventory.free(node),
    }
}

/// A node comes last.
fn add(spots: &mut Vec<Spot>, spot: &Spot) -> Result<(), AllocError>
    ensures { OnOk result (spots.new.items ≡ spots.old.items ++ spot.now ∷ []) }
{
    spots.push(Spot {
        node: Node {
            name: spot.node.name,
            label: spot.node.label,
            size: spot.node.size,
            stamp: spot.node.stamp,
        },
        free: spot.free,
    })?;
    Ok(())
}

/// All nodes, each with what is free on it. It fails if memory is refused.
pub(crate) fn spots_of(alloc: Global, cluster: &Cluster) -> Result<Vec<Spot>, AllocError>
    ensures { IfOk result (λ spots. spots.items ≡ all_spots (state_in cluster.now)) }
{
    let inventory = cluster.inventory();
    let mut spots = Vec::new(alloc);
    let mut next = inventory.first_node();
    while let Some(number) = next {
        add(&mut spots, &spot_of(cluster, number))?;
        next = inventory.next_node(number);
    }
    Ok(spots)
}

/// The number of one of the nodes.
fn number_of(cluster: &Cluster, node: &Node) -> u32
    requires { Contains (state_in cluster.now).nodes node.now }
    ensures { IsNodeHere cluster.now node.now result }
{
    // Opens the inventory, whose rows are sound.
    let _ = cluster.inventory();
    let Some(number) = node_named(cluster, &node.name) else {
        unreachable!()
    };
    number
}

/// The choice on one of the nodes, as a proposal.
pub(crate) fn choice_on(alloc: Global, cluster: &Cluster, node: &Node) -> Option<Proposal>
    requires { Contains (state_in cluster.now).nodes node.now }
    ensures { result ≡ proposed cluster.now.config (state_in cluster.now) node.now }
{
    let number = number_of(cluster, node);
    let mut shut = Shut::none(alloc);
    proposed(cluster, &mut shut, number)
}

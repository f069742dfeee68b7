//! The partitions where a request may go, with the nodes there and what is free on each.

ghost use Rattle.std.specs.Prelude.{◌≡◌, ◌++◌, IfOk, OnOk, option_map};
ghost use Rattle.ynl_resource.specs.Amounts.{greater_of};
ghost use Rattle.ynl_waits.specs.Grounds.{earlier, fits_any, first_by_name, has_nodes, most_free, open_spots, spots_on};

use std::alloc::{AllocError, Global};
use ynl_model::{Items, Node};
use ynl_resource::{Label, Resource};

/// A node, and what is free on it.
#[derive(Clone, Copy)]
pub struct Spot {
    pub node: Node,
    pub free: Resource,
}

/// A partition: whether its clock is spent, and its nodes.
pub struct Ground {
    pub label: Label,
    pub is_spent: bool,
    pub spots: Items<Spot>,
}

// By hand, so that crates above call it: one that is derived is proved anew in each of them, with all that it holds.
impl Drop for Ground {
    fn drop(self) {
        let Ground {
            label: _,
            is_spent: _,
            spots: _,
        } = self;
    }
}

/// Those of some nodes that are in a partition.
pub fn spots_on(alloc: Global, label: &Label, spots: &[Spot]) -> Result<Vec<Spot>, AllocError>
    ensures { IfOk result (λ list. list.items ≡ spots_on label.now spots.now) }
{
    let mut list = Vec::new(alloc);
    for spot in spots {
        if spot.node.label == *label {
            list.push(*spot)?;
        }
    }
    Ok(list)
}

/// Whether a partition has a node.
pub fn has_nodes(ground: &Ground) -> bool
    ensures { result ≡ has_nodes ground.now }
{
    !ground.spots.as_slice().is_empty()
}

/// Adds the nodes of a partition that have room for a size, unless its clock is spent.
pub fn add_open_spots(
    list: &mut Vec<Spot>,
    size: &Resource,
    ground: &Ground,
) -> Result<(), AllocError>
    ensures { OnOk result (list.new.items ≡ list.old.items ++ open_spots size.now ground.now) }
{
    if ground.is_spent {
        return Ok(());
    }
    for spot in ground.spots.as_slice() {
        if size.fits_in(spot.free) {
            list.push(*spot)?;
        }
    }
    Ok(())
}

/// Whether a size fits what is free on any node.
pub(crate) fn fits_any(size: &Resource, spots: &[Spot]) -> bool
    ensures { result ≡ fits_any size.now spots.now }
{
    for spot in spots {
        if size.fits_in(spot.free) {
            return true;
        }
    }
    false
}

fn greater_of(a: &Resource, b: &Resource) -> Resource
    ensures { result ≡ greater_of a.now b.now }
{
    Resource {
        memory: a.memory.max(b.memory),
        vcores: a.vcores.max(b.vcores),
    }
}

/// The most memory that is free on one of some nodes, and the most virtual cores.
pub(crate) fn most_free(spots: &[Spot]) -> Resource
    ensures { result ≡ most_free spots.now }
{
    let mut most = Resource {
        memory: 0,
        vcores: 0,
    };
    for spot in spots {
        most = greater_of(&most, &spot.free);
    }
    most
}

fn earlier<'a>(first: Option<&'a Spot>, spot: &'a Spot) -> Option<&'a Spot>
    ensures { option_map (λ r. r.now) result ≡ earlier (option_map (λ r. r.now) first.entry) spot.now }
{
    match first {
        Some(first) if first.node.name <= spot.node.name => Some(first),
        _ => Some(spot),
    }
}

/// The first of some nodes by name.
pub fn first_by_name(spots: &[Spot]) -> Option<&Spot>
    ensures { option_map (λ r. r.now) result ≡ first_by_name spots.now }
{
    let mut first = None;
    for spot in spots {
        first = earlier(first, spot);
    }
    first
}

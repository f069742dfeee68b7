//! The choices that are known, each shared by the nodes of a partition on which as much is free.

ghost use Rattle.std.specs.Prelude.{◌≡◌, IfSome};
ghost use Rattle.ynl_model.specs.Queues.{Config};
ghost use Rattle.ynl_model.specs.Cluster.{State};
ghost use Rattle.ynl_model.specs.Check.{proposed};
ghost use Rattle.ynl_waits.specs.Choices.{moved, is_row_for, AreChoices};
ghost use Rattle.ynl_waits.specs.Grounds.{IsSpot};

use crate::grounds::Spot;
use std::alloc::{AllocError, Global};
use std::collections::BTreeMap;
use ynl_model::{Node, Proposal};
use ynl_resource::{Label, Resource};

/// The choice on the nodes of a partition on which so much is free, as a proposal for one of them.
#[derive(Clone, Copy)]
pub struct Choice {
    pub label: Label,
    pub free: Resource,
    pub proposal: Option<Proposal>,
}

/// What a choice is found by: the memory and the virtual cores that are free, and the partition.
type Room = (u64, u64, Label);

/// The choices that are known. Where a row stands is a hint: what it leads to is compared before it is used.
#[derive(Drop)]
pub struct Choices {
    pub(crate) rows: Vec<Choice>,
    places: BTreeMap<Room, usize>,
}

fn room_of(spot: &Spot) -> Room {
    (spot.free.memory, spot.free.vcores, spot.node.label)
}

/// A proposal for another node, with that node's stamp.
fn moved(node: &Node, proposal: &Option<Proposal>) -> Option<Proposal>
    ensures { result ≡ moved node.now proposal.now }
{
    match proposal {
        Some(proposal) => Some(Proposal {
            node: node.name,
            stamp: node.stamp,
            tenant: proposal.tenant,
            app: proposal.app,
            what: proposal.what,
            size: proposal.size,
        }),
        None => None,
    }
}

/// Whether a row is for the partition of a node and for as much as is free on it.
fn is_for(row: &Choice, spot: &Spot) -> bool
    ensures { result ≡ is_row_for row.now spot.now }
{
    let label = row.label == spot.node.label;
    label && row.free.memory == spot.free.memory && row.free.vcores == spot.free.vcores
}

impl Choices {
    /// No choice is known.
    pub fn new(alloc: Global) -> Choices
        ensures { (c : Config) (s : State) → AreChoices c s result }
    {
        Choices {
            rows: Vec::new(alloc),
            places: BTreeMap::new(alloc),
        }
    }

    /// The choice on a node, where it is known; it may be that there is none.
    pub fn known_on(&self, spot: &Spot) -> Option<Option<Proposal>>
        ensures { (c : Config) (s : State) → AreChoices c s self.now → IsSpot s spot.now → IfSome result (λ known. known ≡ proposed c s spot.now.node) }
    {
        let place = *self.places.get(&room_of(spot))?;
        let row = self.rows.get(place)?;
        if is_for(row, spot) {
            Some(moved(&spot.node, &row.proposal))
        } else {
            None
        }
    }

    /// The choice on a node is known from now on.
    pub fn note(&mut self, spot: &Spot, proposal: &Option<Proposal>) -> Result<(), AllocError>
        ensures { (c : Config) (s : State) → AreChoices c s self.old → IsSpot s spot.now → proposal.now ≡ proposed c s spot.now.node → AreChoices c s self.new }
    {
        let place = self.rows.len();
        let row = Choice {
            label: spot.node.label,
            free: spot.free,
            proposal: *proposal,
        };
        self.rows.extend_from_slice(&[row])?;
        self.places.insert(room_of(spot), place)?;
        Ok(())
    }
}

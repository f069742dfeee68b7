//! The partitions where requests may go, gathered once for all requests under a label.

ghost use Rattle.std.specs.Prelude.{◌≡◌, IfOk};
ghost use Rattle.ynl_model.specs.Check.{comes_as_guest};
ghost use Rattle.ynl_waits.specs.Grounds.{all_spots, ground, guest_grounds};
ghost use Rattle.ynl_service.specs.reading.reasons.Facts.{guests_among};

use crate::reading::reasons::facts::Facts;
use std::alloc::{AllocError, Global};
use ynl_model::{Items, What};
use ynl_resource::Label;
use ynl_waits::{Ground, Spot, has_nodes, spots_on};

/// A partition, with those of all nodes that are there.
#[tactic(auto, unfolding(ynl_waits::specs::Grounds::ground))]
fn ground_of<F: Facts>(
    alloc: Global,
    facts: &F,
    spots: &[Spot],
    label: &Label,
) -> Result<Ground, AllocError>
    requires { spots.now ≡ all_spots (F.state facts.now) }
    ensures { IfOk result (λ there. there ≡ ground (F.config facts.now) (F.state facts.now) label.now) }
{
    let there = spots_on(alloc, label, spots)?;
    Ok(Ground {
        label: *label,
        is_spent: facts.is_spent(label),
        spots: Items::new(there),
    })
}

/// Whether what is asked for would come to a partition as a guest.
fn comes_as_guest<F: Facts>(facts: &F, label: &Label, what: &What) -> bool
    ensures { result ≡ comes_as_guest (F.config facts.now) label.now what.now }
{
    match what {
        What::Master => false,
        What::Ask(asked, _) => *asked == Label::Unlabelled && facts.takes_guests(label),
    }
}

/// The partitions with a node where a request may go as a guest, of those of some labels.
fn guests_among<F: Facts>(
    alloc: Global,
    facts: &F,
    spots: &[Spot],
    what: &What,
    labels: &[Label],
) -> Result<Vec<Ground>, AllocError>
    requires { spots.now ≡ all_spots (F.state facts.now) }
    ensures { IfOk result (λ guests. guests.items ≡ guests_among (F.config facts.now) (F.state facts.now) what.now labels.now) }
{
    let mut guests = Vec::with_capacity(alloc, labels.len())?;
    for label in labels {
        if comes_as_guest(facts, label, what) {
            let there = ground_of(alloc, facts, spots, label)?;
            if has_nodes(&there) {
                guests.push_reserved(there);
            }
        }
    }
    Ok(guests)
}

/// The partitions with a node where a request may go as a guest.
#[tactic(auto, unfolding(ynl_waits::specs::Grounds::guest_grounds))]
fn guests_of<F: Facts>(
    alloc: Global,
    facts: &F,
    spots: &[Spot],
    what: &What,
) -> Result<Vec<Ground>, AllocError>
    requires { spots.now ≡ all_spots (F.state facts.now) }
    ensures { IfOk result (λ guests. guests.items ≡ guest_grounds (F.config facts.now) (F.state facts.now) what.now) }
{
    let labels = facts.labels(alloc)?;
    guests_among(alloc, facts, spots, what, &labels)
}

/// The partitions where a request may go: its own, and those where it may be a guest.
#[derive(Drop)]
pub(crate) struct Grounds {
    pub(crate) own: Ground,
    pub(crate) guests: Vec<Ground>,
}

/// The partitions where a request may go, whose own has this label.
pub(crate) fn grounds_of<F: Facts>(
    alloc: Global,
    facts: &F,
    spots: &[Spot],
    label: &Label,
    what: &What,
) -> Result<Grounds, AllocError>
    requires { spots.now ≡ all_spots (F.state facts.now) }
    ensures own { IfOk result (λ there. there.own ≡ ground (F.config facts.now) (F.state facts.now) label.now) }
    ensures guests { IfOk result (λ there. there.guests.items ≡ guest_grounds (F.config facts.now) (F.state facts.now) what.now) }
{
    let own = ground_of(alloc, facts, spots, label)?;
    let guests = guests_of(alloc, facts, spots, what)?;
    Ok(Grounds { own, guests })
}

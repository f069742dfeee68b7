//! On which nodes a request is chosen.

ghost use Rattle.std.specs.Prelude.{◌≡◌, IfOk, filter};
ghost use Rattle.std.specs.List.{AllByRecursion};
ghost use Rattle.ynl_model.specs.Check.{proposed};
ghost use Rattle.ynl_waits.specs.Choices.{AreChoices};
ghost use Rattle.ynl_waits.specs.Waits.{is_chosen_on};
ghost use Rattle.ynl_service.specs.reading.reasons.Facts.{IsSpotOf};

use crate::reading::reasons::facts::Facts;
use std::alloc::{AllocError, Global};
use ynl_model::Proposal;
use ynl_waits::{Applicant, Choices, Request, Spot, is_for};

/// The choice on a node: as it is known, or else as it is found, and known from then on.
pub(crate) fn choice_on<F: Facts>(
    facts: &F,
    known: &mut Choices,
    spot: &Spot,
) -> Result<Option<Proposal>, AllocError>
    requires known { AreChoices (F.config facts.now) (F.state facts.now) known.old }
    requires spot { IsSpotOf (F.state facts.now) spot.now }
    ensures choice { IfOk result (λ choice. choice ≡ proposed (F.config facts.now) (F.state facts.now) spot.now.node) }
    ensures known { AreChoices (F.config facts.now) (F.state facts.now) known.new }
{
    if let Some(choice) = known.known_on(spot) {
        return Ok(choice);
    }
    let choice = facts.choice_on(&spot.node);
    known.note(spot, &choice)?;
    Ok(choice)
}

/// Whether the choice on a node is a request.
#[tactic(auto, unfolding(ynl_waits::specs::Waits::is_chosen_on))]
fn is_chosen_on<F: Facts>(
    facts: &F,
    known: &mut Choices,
    app: &Applicant,
    request: &Request,
    spot: &Spot,
) -> Result<bool, AllocError>
    requires known { AreChoices (F.config facts.now) (F.state facts.now) known.old }
    requires spot { IsSpotOf (F.state facts.now) spot.now }
    ensures chosen { IfOk result (λ chosen. chosen ≡ is_chosen_on (F.config facts.now) (F.state facts.now) app.now request.now spot.now) }
    ensures known { AreChoices (F.config facts.now) (F.state facts.now) known.new }
{
    match choice_on(facts, known, spot)? {
        Some(choice) => Ok(is_for(app, request, &choice)),
        None => Ok(false),
    }
}

/// The nodes among some on which a request is chosen.
pub(crate) fn chosen_among<F: Facts>(
    alloc: Global,
    facts: &F,
    known: &mut Choices,
    app: &Applicant,
    request: &Request,
    there: &[Spot],
) -> Result<Vec<Spot>, AllocError>
    requires known { AreChoices (F.config facts.now) (F.state facts.now) known.old }
    requires spots { AllByRecursion (IsSpotOf (F.state facts.now)) there.now }
    ensures chosen { IfOk result (λ chosen. chosen.items ≡ filter (is_chosen_on (F.config facts.now) (F.state facts.now) app.now request.now) there.now) }
    ensures known { AreChoices (F.config facts.now) (F.state facts.now) known.new }
{
    let mut chosen = Vec::new(alloc);
    for spot in there {
        if is_chosen_on(facts, known, app, request, spot)? {
            chosen.push(*spot)?;
        }
    }
    Ok(chosen)
}

//! What is told of a request.

ghost use Rattle.std.specs.Prelude.{◌≡◌, ◌++◌, IfOk, OnOk, filter};
ghost use Rattle.std.specs.List.{AllByRecursion};
ghost use Rattle.ynl_waits.specs.Choices.{AreChoices};
ghost use Rattle.ynl_waits.specs.Grounds.{ground, guest_grounds};
ghost use Rattle.ynl_waits.specs.Waits.{held_back, is_chosen_on, next_told, reasons, told_by, turn_told};
ghost use Rattle.ynl_service.specs.reading.reasons.Facts.{IsAsking, IsSpotOf};

use crate::reading::reasons::choosing::{choice_on, chosen_among};
use crate::reading::reasons::facts::Facts;
use crate::reading::reasons::limits::{add_limits, passes};
use std::alloc::{AllocError, Global};
use ynl_waits::{
    Applicant, Choices, Ground, Reason, Request, Spot, add_next, add_rooms, add_turn, add_where,
    first_by_name, places,
};

/// A request of an application, and the partitions where it may go: its own, and those where it may be a guest.
#[derive(Clone, Copy)]
pub(crate) struct Asked<'a> {
    pub(crate) app: &'a Applicant,
    pub(crate) request: &'a Request,
    pub(crate) own: &'a Ground,
    pub(crate) guests: &'a [Ground],
}

/// Adds all that keeps a request from being placed, of where it may go and of the limits.
#[tactic(auto, unfolding(ynl_waits::specs::Waits::held_back))]
fn add_held_back<F: Facts>(
    facts: &F,
    asked: &Asked<'_>,
    told: &mut Vec<Reason>,
) -> Result<(), AllocError>
    requires { IsAsking (F.state facts.now)
        asked.now.app.now asked.now.request.now.label }
    ensures { OnOk result (told.new.items ≡ told.old.items ++ held_back (F.config facts.now) (F.state facts.now) asked.now.app.now asked.now.request.now asked.now.own.now asked.now.guests.now) }
{
    add_where(told, asked.app, asked.request, asked.own, asked.guests)?;
    add_limits(facts, asked.app, asked.request, asked.own, told)?;
    add_rooms(told, &asked.request.size.amount(), asked.own, asked.guests)
}

/// Adds whose turn it is on the first of the nodes on which a request may be placed, where there are any.
fn add_turn_on<F: Facts>(
    facts: &F,
    known: &mut Choices,
    there: &[Spot],
    told: &mut Vec<Reason>,
) -> Result<(), AllocError>
    requires known { AreChoices (F.config facts.now) (F.state facts.now) known.old }
    requires spots { AllByRecursion (IsSpotOf (F.state facts.now)) there.now }
    ensures told { OnOk result (told.new.items ≡ told.old.items ++ turn_told (F.config facts.now) (F.state facts.now) there.now) }
    ensures known { AreChoices (F.config facts.now) (F.state facts.now) known.new }
{
    let Some(first) = first_by_name(there) else {
        return Ok(());
    };
    match choice_on(facts, known, first)? {
        Some(ahead) => add_turn(told, first, there, &ahead),
        None => Ok(()),
    }
}

/// Where a request is next, of the nodes on which it may be placed.
fn next_of<F: Facts>(
    alloc: Global,
    facts: &F,
    known: &mut Choices,
    asked: &Asked<'_>,
    there: &[Spot],
) -> Result<Vec<Reason>, AllocError>
    requires known { AreChoices (F.config facts.now) (F.state facts.now) known.old }
    requires spots { AllByRecursion (IsSpotOf (F.state facts.now)) there.now }
    ensures told { IfOk result (λ told. told.items ≡ next_told (filter (is_chosen_on (F.config facts.now) (F.state facts.now) asked.now.app.now asked.now.request.now) there.now)) }
    ensures known { AreChoices (F.config facts.now) (F.state facts.now) known.new }
{
    let chosen = chosen_among(alloc, facts, known, asked.app, asked.request, there)?;
    let mut told = Vec::new(alloc);
    add_next(&mut told, &chosen)?;
    Ok(told)
}

/// What is told of a request, by the nodes on which it may be placed.
#[tactic(auto, unfolding(ynl_waits::specs::Waits::told_by))]
fn told_by<F: Facts>(
    alloc: Global,
    facts: &F,
    known: &mut Choices,
    asked: &Asked<'_>,
    there: &[Spot],
) -> Result<Vec<Reason>, AllocError>
    requires known { AreChoices (F.config facts.now) (F.state facts.now) known.old }
    requires spots { AllByRecursion (IsSpotOf (F.state facts.now)) there.now }
    requires asks { IsAsking (F.state facts.now)
        asked.now.app.now asked.now.request.now.label }
    ensures told { IfOk result (λ told. told.items ≡ told_by (F.config facts.now) (F.state facts.now) asked.now.app.now asked.now.request.now asked.now.own.now asked.now.guests.now there.now) }
    ensures known { AreChoices (F.config facts.now) (F.state facts.now) known.new }
{
    let mut told = next_of(alloc, facts, known, asked, there)?;
    if told.is_empty() {
        add_held_back(facts, asked, &mut told)?;
        add_turn_on(facts, known, there, &mut told)?;
    }
    Ok(told)
}

/// The reasons of a request, by the partitions where it may go.
#[tactic(auto, unfolding(ynl_waits::specs::Waits::reasons))]
pub(crate) fn reasons_of<F: Facts>(
    alloc: Global,
    facts: &F,
    known: &mut Choices,
    asked: &Asked<'_>,
) -> Result<Vec<Reason>, AllocError>
    requires known { AreChoices (F.config facts.now) (F.state facts.now) known.old }
    requires own { asked.now.own.now ≡ ground (F.config facts.now) (F.state facts.now) asked.now.request.now.label }
    requires guests { asked.now.guests.now ≡ guest_grounds (F.config facts.now) (F.state facts.now) asked.now.request.now.what }
    requires asks { IsAsking (F.state facts.now)
        asked.now.app.now asked.now.request.now.label }
    ensures told { IfOk result (λ told. told.items ≡ reasons (F.config facts.now) (F.state facts.now) asked.now.app.now asked.now.request.now) }
    ensures known { AreChoices (F.config facts.now) (F.state facts.now) known.new }
{
    let passes = passes(facts, asked.app, asked.request);
    let there = places(
        alloc,
        asked.app,
        asked.request,
        passes,
        asked.own,
        asked.guests,
    )?;
    told_by(alloc, facts, known, asked, &there)
}

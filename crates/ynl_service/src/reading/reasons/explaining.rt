//! Why the requests of an application wait.

ghost use Rattle.std.specs.Prelude.{◌≡◌, ◌++◌, ◌∷◌, [], IfOk, OnOk, Some, map};
ghost use Rattle.std.specs.List.{flat_map};
ghost use Rattle.ynl_model.specs.Applications.{Application, find_app};
ghost use Rattle.ynl_waits.specs.Choices.{AreChoices};
ghost use Rattle.ynl_waits.specs.Grounds.{all_spots, ground, guest_grounds};
ghost use Rattle.ynl_waits.specs.Waits.{applicant, explained_of, requests, wait};
ghost use Rattle.ynl_model.specs.declared.proposals.What.TheVariants.{Ask};
ghost use Rattle.ynl_service.specs.reading.reasons.Facts.{ask_wait, asks_waiting, found_of, masters_waiting, IsApplicant, IsAsking, IsFound};

use crate::reading::reasons::facts::{Facts, Found};
use crate::reading::reasons::grounds::grounds_of;
use crate::reading::reasons::telling::{Asked, reasons_of};
use std::alloc::{AllocError, Global};
use ynl_model::{Items, Pending, What};
use ynl_resource::{Label, Name, Refusal};
use ynl_waits::{Applicant, Choices, Explained, Ground, Request, Spot, Wait};

/// Adds a request with its reasons.
fn add_wait<F: Facts>(
    alloc: Global,
    facts: &F,
    known: &mut Choices,
    asked: &Asked<'_>,
    waits: &mut Vec<Wait>,
) -> Result<(), AllocError>
    requires known { AreChoices (F.config facts.now) (F.state facts.now) known.old }
    requires own { asked.now.own.now ≡ ground (F.config facts.now) (F.state facts.now) asked.now.request.now.label }
    requires guests { asked.now.guests.now ≡ guest_grounds (F.config facts.now) (F.state facts.now) asked.now.request.now.what }
    requires asks { IsAsking (F.state facts.now)
        asked.now.app.now asked.now.request.now.label }
    ensures waits { OnOk result (waits.new.items ≡ waits.old.items ++ wait (F.config facts.now) (F.state facts.now) asked.now.app.now asked.now.request.now ∷ []) }
    ensures known { AreChoices (F.config facts.now) (F.state facts.now) known.new }
{
    waits.reserve(1)?;
    let reasons = reasons_of(alloc, facts, known, asked)?;
    waits.push_reserved(Wait {
        request: *asked.request,
        reasons: Items::new(reasons),
    });
    Ok(())
}

/// Whose requests are explained, and the nodes there are.
#[derive(Clone, Copy)]
struct Query<'a> {
    alloc: Global,
    tenant: &'a Name,
    name: &'a Name,
    app: &'a Applicant,
    spots: &'a [Spot],
}

/// Adds the request for the master, where the application waits.
fn add_master<F: Facts>(
    facts: &F,
    known: &mut Choices,
    query: &Query<'_>,
    found: &Found,
    waits: &mut Vec<Wait>,
) -> Result<(), AllocError>
    requires known { AreChoices (F.config facts.now) (F.state facts.now) known.old }
    requires spots { query.now.spots.now ≡ all_spots (F.state facts.now) }
    requires found { IsFound (F.state facts.now)
        query.now.tenant.now query.now.name.now found.now }
    ensures waits { OnOk result (waits.new.items ≡ waits.old.items ++ masters_waiting (F.config facts.now) (F.state facts.now) found.now) }
    ensures known { AreChoices (F.config facts.now) (F.state facts.now) known.new }
{
    if found.applicant.runs {
        return Ok(());
    }
    let alloc = query.alloc;
    let request = Request {
        what: What::Master,
        label: found.home,
        size: found.master,
        count: 1,
    };
    let grounds = grounds_of(alloc, facts, query.spots, &found.home, &What::Master)?;
    let asked = Asked {
        app: &found.applicant,
        request: &request,
        own: &grounds.own,
        guests: &grounds.guests,
    };
    add_wait(alloc, facts, known, &asked, waits)
}

/// What is asked for under a label, and the partitions where that may go.
#[derive(Clone, Copy)]
struct Under<'a> {
    label: &'a Label,
    asks: &'a [Pending],
    own: &'a Ground,
    guests: &'a [Ground],
}

/// Adds the requests of asks under a label.
fn add_asks<F: Facts>(
    facts: &F,
    known: &mut Choices,
    query: &Query<'_>,
    under: &Under<'_>,
    waits: &mut Vec<Wait>,
) -> Result<(), AllocError>
    requires known { AreChoices (F.config facts.now) (F.state facts.now) known.old }
    requires own { under.now.own.now ≡ ground (F.config facts.now) (F.state facts.now) under.now.label.now }
    requires guests { under.now.guests.now ≡ guest_grounds (F.config facts.now) (F.state facts.now) (Ask under.now.label.now 0) }
    requires asks { IsAsking (F.state facts.now) query.now.app.now under.now.label.now }
    ensures waits { OnOk result (waits.new.items ≡ waits.old.items ++ map (ask_wait (F.config facts.now) (F.state facts.now) query.now.app.now under.now.label.now) under.now.asks.now) }
    ensures known { AreChoices (F.config facts.now) (F.state facts.now) known.new }
{
    for ask in under.asks {
        let request = Request {
            what: What::Ask(*under.label, ask.priority),
            label: *under.label,
            size: ask.size,
            count: ask.count,
        };
        let asked = Asked {
            app: query.app,
            request: &request,
            own: under.own,
            guests: under.guests,
        };
        add_wait(query.alloc, facts, known, &asked, waits)?;
    }
    Ok(())
}

/// Adds what an application asks for under a label.
fn add_label<F: Facts>(
    facts: &F,
    known: &mut Choices,
    query: &Query<'_>,
    label: &Label,
    waits: &mut Vec<Wait>,
) -> Result<(), AllocError>
    requires known { AreChoices (F.config facts.now) (F.state facts.now) known.old }
    requires spots { query.now.spots.now ≡ all_spots (F.state facts.now) }
    requires app { IsApplicant (F.state facts.now)
        query.now.tenant.now query.now.name.now query.now.app.now }
    ensures waits { OnOk result ((live : Application) → find_app (F.state facts.now).leaves query.now.tenant.now query.now.name.now ≡ Some live → waits.new.items ≡ waits.old.items ++ asks_waiting (F.config facts.now) (F.state facts.now) query.now.app.now live label.now) }
    ensures known { AreChoices (F.config facts.now) (F.state facts.now) known.new }
{
    let alloc = query.alloc;
    let asks = facts.asks(alloc, query.tenant, query.name, label)?;
    if asks.is_empty() {
        return Ok(());
    }
    let grounds = grounds_of(alloc, facts, query.spots, label, &What::Ask(*label, 0))?;
    let under = Under {
        label,
        asks: &asks,
        own: &grounds.own,
        guests: &grounds.guests,
    };
    add_asks(facts, known, query, &under, waits)
}

/// Adds what an application asks for under some labels.
fn add_labels<F: Facts>(
    facts: &F,
    known: &mut Choices,
    query: &Query<'_>,
    labels: &[Label],
    waits: &mut Vec<Wait>,
) -> Result<(), AllocError>
    requires known { AreChoices (F.config facts.now) (F.state facts.now) known.old }
    requires spots { query.now.spots.now ≡ all_spots (F.state facts.now) }
    requires app { IsApplicant (F.state facts.now)
        query.now.tenant.now query.now.name.now query.now.app.now }
    ensures waits { OnOk result ((live : Application) → find_app (F.state facts.now).leaves query.now.tenant.now query.now.name.now ≡ Some live → waits.new.items ≡ waits.old.items ++ flat_map (asks_waiting (F.config facts.now) (F.state facts.now) query.now.app.now live) labels.now) }
    ensures known { AreChoices (F.config facts.now) (F.state facts.now) known.new }
{
    for label in labels {
        add_label(facts, known, query, label, waits)?;
    }
    Ok(())
}

/// The requests of a live application with their reasons.
fn waits_of<F: Facts>(
    alloc: Global,
    facts: &F,
    tenant: &Name,
    name: &Name,
    found: &Found,
) -> Result<Vec<Wait>, AllocError>
    requires { IsFound (F.state facts.now) tenant.now name.now found.now }
    ensures { IfOk result (λ waits. (live : Application) → find_app (F.state facts.now).leaves tenant.now name.now ≡ Some live → found.now ≡ found_of (F.state facts.now) live → waits.items ≡ map (wait (F.config facts.now) (F.state facts.now) (applicant (F.state facts.now) live)) (requests (F.config facts.now) (F.state facts.now) live)) }
{
    let spots = facts.spots(alloc)?;
    let labels = facts.labels(alloc)?;
    let query = Query {
        alloc,
        tenant,
        name,
        app: &found.applicant,
        spots: &spots,
    };
    let mut known = Choices::new(alloc);
    let mut waits = Vec::new(alloc);
    add_master(facts, &mut known, &query, found, &mut waits)?;
    add_labels(facts, &mut known, &query, &labels, &mut waits)?;
    Ok(waits)
}

/// Why the requests of a tenant's application wait, where it has a live one of that name. One choice is made for each
/// partition and free room, and shared; none for nodes on which no request of the application may be placed.
#[tactic(auto, unfolding(ynl_waits::specs::Waits::explained_of))]
pub fn explain<F: Facts>(
    alloc: Global,
    facts: &F,
    tenant: &Name,
    name: &Name,
) -> Result<Explained, AllocError>
    ensures { IfOk result (λ explained. explained ≡ explained_of (F.config facts.now) (F.state facts.now) tenant.now name.now) }
{
    let Some(found) = facts.find(tenant, name) else {
        return Ok(Explained::Refused(Refusal::NoSuchApplication));
    };
    let waits = waits_of(alloc, facts, tenant, name, &found)?;
    Ok(Explained::Waits(Items::new(waits)))
}

//! The limits of a request on its own partition.

ghost use Rattle.std.specs.Prelude.{◌≡◌, ◌≤◌, ◌++◌, OnOk, length, take};
ghost use Rattle.ynl_model.specs.Service.{within_master_share, within_maximum, within_user_limit};
ghost use Rattle.ynl_waits.specs.Waits.{item, keeps_maximum, limits_told, master_share_told, maximum_of_told, maximum_told, passes, user_limit_told};
ghost use Rattle.ynl_service.specs.reading.reasons.Facts.{IsAsking};

use crate::reading::reasons::facts::Facts;
use std::alloc::AllocError;
use ynl_model::What;
use ynl_waits::{Applicant, Ground, Reason, Request, Step, add, fits_on_top, has_nodes, is_ready};

/// Whether the queue so many steps below root stays within its maximum.
fn keeps_maximum<F: Facts>(facts: &F, app: &Applicant, request: &Request, depth: usize) -> bool
    requires asks { IsAsking (F.state facts.now) app.now request.now.label }
    requires depth { depth ≤ length app.now.leaf }
    ensures { result ≡ keeps_maximum (F.state facts.now) request.now (take depth app.now.leaf) }
{
    let used = facts.used(app, depth, &request.label);
    let maximum = facts.maximum(app, depth, &request.label);
    fits_on_top(&used, &request.size.amount(), &maximum)
}

/// Whether each queue from root to the leaf does.
#[tactic(auto, unfolding(ynl_model::specs::Service::within_maximum))]
fn within_maxima<F: Facts>(facts: &F, app: &Applicant, request: &Request) -> bool
    requires { IsAsking (F.state facts.now) app.now request.now.label }
    ensures { result ≡ within_maximum (F.state facts.now) request.now.label (item app.now request.now) }
{
    let mut within = keeps_maximum(facts, app, request, 0);
    for depth in 0..app.leaf.names().len() {
        within = within && keeps_maximum(facts, app, request, depth + 1);
    }
    within
}

/// Adds that the queue so many steps below root does not, where that is so.
fn add_maximum<F: Facts>(
    facts: &F,
    app: &Applicant,
    request: &Request,
    depth: usize,
    told: &mut Vec<Reason>,
) -> Result<(), AllocError>
    requires asks { IsAsking (F.state facts.now) app.now request.now.label }
    requires depth { depth ≤ length app.now.leaf }
    ensures { OnOk result (told.new.items ≡ told.old.items ++ maximum_of_told (F.state facts.now) app.now request.now (take depth app.now.leaf)) }
{
    if keeps_maximum(facts, app, request, depth) {
        return Ok(());
    }
    let step = Step {
        leaf: app.leaf,
        depth,
    };
    let used = facts.used(app, depth, &request.label);
    let maximum = facts.maximum(app, depth, &request.label);
    add(
        told,
        Reason::Maximum {
            queue: step,
            used,
            maximum,
        },
    )
}

/// Adds the queues that do not, from root to the leaf.
#[tactic(auto, unfolding(ynl_waits::specs::Waits::maximum_told))]
fn add_maxima<F: Facts>(
    facts: &F,
    app: &Applicant,
    request: &Request,
    told: &mut Vec<Reason>,
) -> Result<(), AllocError>
    requires { IsAsking (F.state facts.now) app.now request.now.label }
    ensures { OnOk result (told.new.items ≡ told.old.items ++ maximum_told (F.state facts.now) app.now request.now) }
{
    add_maximum(facts, app, request, 0, told)?;
    for depth in 0..app.leaf.names().len() {
        add_maximum(facts, app, request, depth + 1, told)?;
    }
    Ok(())
}

#[tactic(auto, unfolding(ynl_model::specs::Service::within_user_limit))]
fn keeps_user_limit<F: Facts>(facts: &F, app: &Applicant, request: &Request) -> bool
    requires { IsAsking (F.state facts.now) app.now request.now.label }
    ensures { result ≡ within_user_limit (F.config facts.now) (F.state facts.now) request.now.label (item app.now request.now) }
{
    let used = facts.user_used(app, &request.label);
    let limit = facts.user_limit(app, &request.label, &request.size);
    fits_on_top(&used, &request.size.amount(), &limit)
}

#[tactic(auto, unfolding(ynl_waits::specs::Waits::user_limit_told))]
fn add_user_limit<F: Facts>(
    facts: &F,
    app: &Applicant,
    request: &Request,
    told: &mut Vec<Reason>,
) -> Result<(), AllocError>
    requires { IsAsking (F.state facts.now) app.now request.now.label }
    ensures { OnOk result (told.new.items ≡ told.old.items ++ user_limit_told (F.config facts.now) (F.state facts.now) app.now request.now) }
{
    if keeps_user_limit(facts, app, request) {
        return Ok(());
    }
    let used = facts.user_used(app, &request.label);
    let limit = facts.user_limit(app, &request.label, &request.size);
    let guaranteed = facts.guaranteed(app, &request.label);
    add(
        told,
        Reason::UserLimit {
            user: app.user,
            used,
            limit,
            guaranteed,
        },
    )
}

#[tactic(auto, unfolding(ynl_model::specs::Service::within_master_share))]
fn keeps_master_share<F: Facts>(facts: &F, app: &Applicant, request: &Request) -> bool
    requires { IsAsking (F.state facts.now) app.now request.now.label }
    ensures { result ≡ within_master_share (F.config facts.now) (F.state facts.now) request.now.label app.now.leaf request.now.what request.now.size }
{
    match &request.what {
        What::Master => {
            let used = facts.masters_used(app, &request.label);
            let limit = facts.master_limit(app, &request.label);
            fits_on_top(&used, &request.size.amount(), &limit)
                || facts.has_no_master(app, &request.label)
        }
        What::Ask(_, _) => true,
    }
}

#[tactic(auto, unfolding(ynl_waits::specs::Waits::master_share_told))]
fn add_master_share<F: Facts>(
    facts: &F,
    app: &Applicant,
    request: &Request,
    told: &mut Vec<Reason>,
) -> Result<(), AllocError>
    requires { IsAsking (F.state facts.now) app.now request.now.label }
    ensures { OnOk result (told.new.items ≡ told.old.items ++ master_share_told (F.config facts.now) (F.state facts.now) app.now request.now) }
{
    if keeps_master_share(facts, app, request) {
        return Ok(());
    }
    let used = facts.masters_used(app, &request.label);
    let limit = facts.master_limit(app, &request.label);
    add(told, Reason::MasterShare { used, limit })
}

/// Whether a request passes every test of its own partition but that for room.
#[tactic(auto, unfolding(ynl_waits::specs::Waits::passes))]
pub(crate) fn passes<F: Facts>(facts: &F, app: &Applicant, request: &Request) -> bool
    requires { IsAsking (F.state facts.now) app.now request.now.label }
    ensures { result ≡ passes (F.config facts.now) (F.state facts.now) app.now request.now }
{
    is_ready(app, &request.what)
        && within_maxima(facts, app, request)
        && keeps_user_limit(facts, app, request)
        && keeps_master_share(facts, app, request)
}

/// Adds the limits that a request does not keep on its own partition.
#[tactic(auto, unfolding(ynl_waits::specs::Waits::limits_told))]
pub(crate) fn add_limits<F: Facts>(
    facts: &F,
    app: &Applicant,
    request: &Request,
    own: &Ground,
    told: &mut Vec<Reason>,
) -> Result<(), AllocError>
    requires { IsAsking (F.state facts.now) app.now request.now.label }
    ensures { OnOk result (told.new.items ≡ told.old.items ++ limits_told (F.config facts.now) (F.state facts.now) app.now request.now own.now) }
{
    if has_nodes(own) {
        add_maxima(facts, app, request, told)?;
        add_user_limit(facts, app, request, told)?;
    }
    add_master_share(facts, app, request, told)
}

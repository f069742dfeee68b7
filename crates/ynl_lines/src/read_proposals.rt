//! From objects to proposals, and to the events that speak of them.

ghost use Rattle.std.specs.Prelude.{◌≡◌, option_map, IfOk, OnOk};
ghost use Rattle.ynl_fields.specs.Trees.{data_at};
ghost use Rattle.ynl_resource.specs.Amounts.{IsSize};
ghost use Rattle.ynl_lines.specs.Reading.{Gives, HasPriority, HasProposalNumbers, IsRanged};
ghost use Rattle.ynl_lines.specs.Reading as spec;

use crate::faults::LineFault;
use crate::read_nodes::node_at;
use ynl_fields::{
    Fields, keys_are, label_at, name_at, number_at, size_at, text_at, within, within_small,
};
use ynl_model::{Event, Proposal, What};
use ynl_resource::{Label, MOST_CLOCK};

/// `propose`: what would be placed on a node?
#[tactic(auto, unfolding(crate::specs::Reading::propose_at))]
pub fn propose_at(event: &Fields<'_, '_>, into: &mut Event) -> Result<(), LineFault>
    ensures event { Gives (λ _. into.new) result (spec.propose_at (data_at event.now.stands)) }
    ensures ranged { OnOk result (IsRanged into.new) }
{
    let node = node_at(event)?;
    *into = Event::Propose { node };
    Ok(())
}

/// The label's text and the priority of a container that was asked for.
fn asked_at<'v>(proposal: &Fields<'v, '_>) -> Result<Option<(&'v str, u64)>, LineFault>
    ensures { Gives (λ o. option_map (λ wanted. (wanted.0.now, wanted.1)) o) result (spec.asked_at (data_at proposal.now.stands)) }
{
    keys_are(proposal, 9, LineFault::Field)?;
    let label = text_at(proposal, "label", LineFault::Field)?;
    let priority = number_at(proposal, "priority", LineFault::Field)?;
    Ok(Some((label, priority)))
}

/// The same, by the word for what a container is for; nothing of a master.
fn wanted_by<'v>(what: &str, proposal: &Fields<'v, '_>) -> Result<Option<(&'v str, u64)>, LineFault>
    ensures { Gives (λ o. option_map (λ wanted. (wanted.0.now, wanted.1)) o) result (spec.wanted_by what.now (data_at proposal.now.stands)) }
{
    if what == "master" {
        keys_are(proposal, 7, LineFault::Field)?;
        Ok(None)
    } else if what == "ask" {
        asked_at(proposal)
    } else {
        Err(LineFault::Field)
    }
}

/// The same, from the word under its key.
#[tactic(auto, unfolding(crate::specs::Reading::wanted_at))]
pub fn wanted_at<'v>(proposal: &Fields<'v, '_>) -> Result<Option<(&'v str, u64)>, LineFault>
    ensures { Gives (λ o. option_map (λ wanted. (wanted.0.now, wanted.1)) o) result (spec.wanted_at (data_at proposal.now.stands)) }
{
    let what = text_at(proposal, "what", LineFault::Field)?;
    wanted_by(what, proposal)
}

/// The same, with the label read.
#[tactic(auto, unfolding(crate::specs::Reading::wanted_label_at))]
pub fn wanted_label_at(wanted: Option<(&str, u64)>) -> Result<Option<(Label, u64)>, LineFault>
    ensures { result ≡ spec.wanted_label_at (option_map (λ wanted. (wanted.0.now, wanted.1)) wanted.entry) }
{
    match wanted {
        None => Ok(None),
        Some((text, priority)) => {
            let label = label_at(text, LineFault::Name)?;
            Ok(Some((label, priority)))
        }
    }
}

/// What is wanted.
#[tactic(auto, unfolding(crate::specs::Reading::what_at))]
pub fn what_at(wanted: Option<(Label, u64)>) -> Result<What, LineFault>
    ensures what { result ≡ spec.what_at wanted }
    ensures ranged { IfOk result (λ what. HasPriority what) }
{
    match wanted {
        None => Ok(What::Master),
        Some((label, priority)) => {
            let priority = within_small(u32::MAX, priority, LineFault::Range)?;
            Ok(What::Ask(label, priority))
        }
    }
}

/// A proposal; its `label` and `priority` are there just where it is for an ask.
#[tactic(auto, unfolding(crate::specs::Reading::proposal_at))]
pub fn proposal_at(proposal: &Fields<'_, '_>) -> Result<Proposal, LineFault>
    ensures proposal { result ≡ spec.proposal_at (data_at proposal.now.stands) }
    ensures ranged { IfOk result (λ proposal. IsSize proposal.size × HasProposalNumbers proposal) }
{
    let wanted = wanted_at(proposal)?;
    let app = text_at(proposal, "app", LineFault::Field)?;
    let memory = number_at(proposal, "memory", LineFault::Field)?;
    let node = text_at(proposal, "node", LineFault::Field)?;
    let stamp = number_at(proposal, "stamp", LineFault::Field)?;
    let tenant = text_at(proposal, "tenant", LineFault::Field)?;
    let vcores = number_at(proposal, "vcores", LineFault::Field)?;
    proposal_of(wanted, app, memory, node, stamp, tenant, vcores)
}

/// A proposal, from what stands under its keys.
fn proposal_of(
    wanted: Option<(&str, u64)>,
    app: &str,
    memory: u64,
    node: &str,
    stamp: u64,
    tenant: &str,
    vcores: u64,
) -> Result<Proposal, LineFault>
    ensures proposal { result ≡ spec.proposal_of (option_map (λ wanted. (wanted.0.now, wanted.1)) wanted.entry) app.now memory node.now stamp tenant.now vcores }
    ensures ranged { IfOk result (λ proposal. IsSize proposal.size × HasProposalNumbers proposal) }
{
    let app = name_at(app, LineFault::Name)?;
    let wanted = wanted_label_at(wanted)?;
    let node = name_at(node, LineFault::Name)?;
    let tenant = name_at(tenant, LineFault::Name)?;
    let what = what_at(wanted)?;
    let stamp = within(MOST_CLOCK, stamp, LineFault::Range)?;
    let size = size_at(memory, vcores, LineFault::Range)?;
    Ok(Proposal {
        node,
        stamp,
        tenant,
        app,
        what,
        size,
    })
}

/// `commit`: a proposal is to be placed.
#[tactic(auto, unfolding(crate::specs::Reading::commit_at))]
pub fn commit_at(event: &Fields<'_, '_>, into: &mut Event) -> Result<(), LineFault>
    ensures event { Gives (λ _. into.new) result (spec.commit_at (data_at event.now.stands)) }
    ensures ranged { OnOk result (IsRanged into.new) }
{
    keys_are(event, 2, LineFault::Field)?;
    match event.get("proposal") {
        Some(value) => {
            let proposal = proposal_at(&value)?;
            *into = Event::Commit { proposal };
            Ok(())
        }
        None => Err(LineFault::Field),
    }
}

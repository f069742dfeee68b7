//! A proposal, as a JSON object.

ghost use Rattle.std.specs.Prelude.{◌≡◌, ◌++◌, OnOk};
ghost use Rattle.ynl_lines.specs.Writing.{asked_proposal, master_proposal, proposal_data};
ghost use Rattle.ynl_explain.specs.Objects.{tokens_of};

use crate::objects::{Content, put_object};
use json::Writer;
use std::alloc::{AllocError, Global};
use ynl_model::{Proposal, What};
use ynl_resource::Label;

/// A proposal of a master.
fn put_master(alloc: Global, line: &mut Writer, proposal: &Proposal) -> Result<(), AllocError>
    ensures before { line.new.before ≡ line.old.before }
    ensures tokens { OnOk result (line.new.tokens ≡ line.old.tokens ++ tokens_of (master_proposal proposal.now)) }
{
    put_object(
        alloc,
        line,
        &[
            ("app", Content::Named(&proposal.app)),
            ("memory", Content::Memory(&proposal.size)),
            ("node", Content::Named(&proposal.node)),
            ("stamp", Content::Number(proposal.stamp)),
            ("tenant", Content::Named(&proposal.tenant)),
            ("vcores", Content::Vcores(&proposal.size)),
            ("what", Content::Word("master")),
        ],
    )
}

/// A proposal of a container that was asked for.
fn put_asked<'a>(
    alloc: Global,
    line: &mut Writer,
    proposal: &'a Proposal,
    label: &'a Label,
    priority: u32,
) -> Result<(), AllocError>
    ensures before { line.new.before ≡ line.old.before }
    ensures tokens { OnOk result (line.new.tokens ≡ line.old.tokens ++ tokens_of (asked_proposal proposal.now label.now priority)) }
{
    put_object(
        alloc,
        line,
        &[
            ("app", Content::Named(&proposal.app)),
            ("label", Content::Labelled(label)),
            ("memory", Content::Memory(&proposal.size)),
            ("node", Content::Named(&proposal.node)),
            ("priority", Content::Small(priority)),
            ("stamp", Content::Number(proposal.stamp)),
            ("tenant", Content::Named(&proposal.tenant)),
            ("vcores", Content::Vcores(&proposal.size)),
            ("what", Content::Word("ask")),
        ],
    )
}

/// A proposal.
pub(crate) fn put_proposal(
    alloc: Global,
    line: &mut Writer,
    proposal: &Proposal,
) -> Result<(), AllocError>
    ensures before { line.new.before ≡ line.old.before }
    ensures tokens { OnOk result (line.new.tokens ≡ line.old.tokens ++ tokens_of (proposal_data proposal.now)) }
{
    match &proposal.what {
        What::Master => put_master(alloc, line, proposal),
        What::Ask(label, priority) => put_asked(alloc, line, proposal, label, *priority),
    }
}

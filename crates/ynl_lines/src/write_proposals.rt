//! The texts of proposals, added piece by piece.

ghost use Rattle.std.specs.Prelude.{◌≡◌, ◌++◌, OnOk};
ghost use Rattle.serde_json.specs.Written.{compact_text};
ghost use Rattle.ynl_lines.specs.Sound.{IsLabel, IsProposal, HasProposalParts as HasParts};
ghost use Rattle.ynl_lines.specs.Writing as spec;

use std::alloc::AllocError;
use ynl_fields::{add, add_label, add_name, add_number};
use ynl_model::{Proposal, What};
use ynl_resource::Label;

/// Adds a proposal of a container that was asked for.
fn add_asked(
    text: &mut Vec<u8>,
    proposal: &Proposal,
    label: &Label,
    priority: u32,
) -> Result<(), AllocError>
    ensures added { OnOk result (text.new.items ≡ text.old.items ++ compact_text (spec.asked_proposal proposal.now label.now priority)) }
    ensures sound { OnOk result (HasParts proposal.now × IsLabel label.now) }
{
    let size = proposal.size.amount();
    add_name(text, b"{\"app\":\"", &proposal.app)?;
    add_label(text, b"\",\"label\":\"", label)?;
    add_number(text, b"\",\"memory\":", size.memory)?;
    add_name(text, b",\"node\":\"", &proposal.node)?;
    add_number(text, b"\",\"priority\":", u64::from(priority))?;
    add_number(text, b",\"stamp\":", proposal.stamp)?;
    add_name(text, b",\"tenant\":\"", &proposal.tenant)?;
    add_number(text, b"\",\"vcores\":", size.vcores)?;
    add(text, b",\"what\":\"ask\"}")
}

/// Adds a proposal of a master.
fn add_master(text: &mut Vec<u8>, proposal: &Proposal) -> Result<(), AllocError>
    ensures added { OnOk result (text.new.items ≡ text.old.items ++ compact_text (spec.master_proposal proposal.now)) }
    ensures sound { OnOk result (HasParts proposal.now) }
{
    let size = proposal.size.amount();
    add_name(text, b"{\"app\":\"", &proposal.app)?;
    add_number(text, b"\",\"memory\":", size.memory)?;
    add_name(text, b",\"node\":\"", &proposal.node)?;
    add_number(text, b"\",\"stamp\":", proposal.stamp)?;
    add_name(text, b",\"tenant\":\"", &proposal.tenant)?;
    add_number(text, b"\",\"vcores\":", size.vcores)?;
    add(text, b",\"what\":\"master\"}")
}

/// Adds a proposal.
pub fn add_proposal(text: &mut Vec<u8>, proposal: &Proposal) -> Result<(), AllocError>
    ensures added { OnOk result (text.new.items ≡ text.old.items ++ compact_text (spec.proposal_data proposal.now)) }
    ensures sound { OnOk result (IsProposal proposal.now) }
{
    match &proposal.what {
        What::Master => add_master(text, proposal),
        What::Ask(label, priority) => add_asked(text, proposal, label, *priority),
    }
}

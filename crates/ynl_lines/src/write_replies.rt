//! The texts of replies, added piece by piece: no value of the whole is made.

ghost use Rattle.std.specs.Prelude.{◌≡◌, ◌++◌, All, IfSome, OnOk, Some};
ghost use Rattle.serde_json.specs.Written.{compact_text};
ghost use Rattle.ynl_model.specs.declared.replies.Reply.TheVariants as reply;
ghost use Rattle.ynl_lines.specs.Sound.{IsContainer, IsPending, IsProposal, IsReply};
ghost use Rattle.ynl_lines.specs.Writing as spec;

use crate::write_containers::{add_list, add_placed};
use crate::write_proposals::add_proposal;
use std::alloc::AllocError;
use ynl_fields::{add, add_number, add_text};
use ynl_model::{Pending, Placed, Proposal, Reply};
use ynl_resource::{Refusal, Resource};

/// Adds the reply to an event that was refused.
fn add_refused(text: &mut Vec<u8>, refusal: Refusal) -> Result<(), AllocError>
    ensures { OnOk result (text.new.items ≡ text.old.items ++ compact_text (spec.refused_data refusal)) }
{
    add_text(text, b"{\"refused\":\"", refusal.word().as_bytes())?;
    add(text, b"\",\"reply\":\"refused\"}")
}

/// Adds the reply to a heartbeat.
fn add_several(text: &mut Vec<u8>, list: &[Placed]) -> Result<(), AllocError>
    ensures added { OnOk result (text.new.items ≡ text.old.items ++ compact_text (spec.placed_reply list.now)) }
    ensures sound { OnOk result (All IsContainer list.now) }
{
    add(text, b"{\"placed\":[")?;
    add_list(text, list)?;
    add(text, b",\"reply\":\"placed\"}")
}

/// Adds the reply to a propose that found what to place.
fn add_found(text: &mut Vec<u8>, proposal: &Proposal) -> Result<(), AllocError>
    ensures added { OnOk result (text.new.items ≡ text.old.items ++ compact_text (spec.proposed_data (Some proposal.now))) }
    ensures sound { OnOk result (IsProposal proposal.now) }
{
    add(text, b"{\"proposal\":")?;
    add_proposal(text, proposal)?;
    add(text, b",\"reply\":\"proposal\"}")
}

/// Adds the reply to a propose.
#[tactic(auto, unfolding(json::specs::Print::escape_byte))]
fn add_proposed(text: &mut Vec<u8>, proposed: &Option<Proposal>) -> Result<(), AllocError>
    ensures added { OnOk result (text.new.items ≡ text.old.items ++ compact_text (spec.proposed_data proposed.now)) }
    ensures sound { OnOk result (IfSome proposed.now IsProposal) }
{
    match proposed {
        None => add(text, b"{\"reply\":\"nothing\"}"),
        Some(proposal) => add_found(text, proposal),
    }
}

/// Adds the reply to a commit.
fn add_committed(text: &mut Vec<u8>, placed: &Placed) -> Result<(), AllocError>
    ensures added { OnOk result (text.new.items ≡ text.old.items ++ compact_text (spec.committed_reply placed.now)) }
    ensures sound { OnOk result (IsContainer placed.now) }
{
    add(text, b"{\"container\":")?;
    add_placed(text, placed)?;
    add(text, b",\"reply\":\"committed\"}")
}

/// Adds the reply to a poll.
fn add_held(text: &mut Vec<u8>, containers: &[Placed], asks: &[Pending]) -> Result<(), AllocError>
    ensures added { OnOk result (text.new.items ≡ text.old.items ++ compact_text (spec.held_data containers.now asks.now)) }
    ensures sound { OnOk result (All IsContainer containers.now × All IsPending asks.now) }
{
    add(text, b"{\"asks\":[")?;
    add_list(text, asks)?;
    add(text, b",\"containers\":[")?;
    add_list(text, containers)?;
    add(text, b",\"reply\":\"held\"}")
}

/// Adds what stands before an amount, and the amount.
fn add_amount<const N: usize>(
    text: &mut Vec<u8>,
    front: &[u8; N],
    amount: Resource,
) -> Result<(), AllocError>
    ensures { OnOk result (text.new.items ≡ text.old.items ++ (front.now ++ compact_text (spec.amount_data amount))) }
{
    add(text, front)?;
    add_number(text, b"{\"memory\":", amount.memory)?;
    add_number(text, b",\"vcores\":", amount.vcores)?;
    add(text, b"}")
}

/// Adds the reply to a usage.
fn add_usage(
    text: &mut Vec<u8>,
    used: Resource,
    guaranteed: Resource,
    maximum: Resource,
    masters: Resource,
    guests: Resource,
) -> Result<(), AllocError>
    ensures { OnOk result (text.new.items ≡ text.old.items ++ compact_text (spec.usage_data used guaranteed maximum masters guests)) }
{
    add_amount(text, b"{\"guaranteed\":", guaranteed)?;
    add_amount(text, b",\"guests\":", guests)?;
    add_amount(text, b",\"masters\":", masters)?;
    add_amount(text, b",\"maximum\":", maximum)?;
    add_amount(text, b",\"reply\":\"usage\",\"used\":", used)?;
    add(text, b"}")
}

/// Adds the text of a reply.
pub fn add_reply(text: &mut Vec<u8>, reply: &Reply) -> Result<(), AllocError>
    ensures added { OnOk result (text.new.items ≡ text.old.items ++ spec.reply_text reply.now) }
    ensures sound { OnOk result (IsReply reply.now) }
{
    match reply {
        Reply::Done => add(text, b"{\"reply\":\"done\"}"),
        Reply::Refused(refusal) => add_refused(text, *refusal),
        Reply::Placed(placed) => add_several(text, placed.as_slice()),
        Reply::Proposed(proposed) => add_proposed(text, proposed),
        Reply::Committed(placed) => add_committed(text, placed),
        Reply::Held { containers, asks } => {
            add_held(text, containers.as_slice(), asks.as_slice())
        }
        Reply::Usage {
            used,
            guaranteed,
            maximum,
            masters,
            guests,
        } => add_usage(text, *used, *guaranteed, *maximum, *masters, *guests),
    }
}

/// Puts the text of a reply, without the newline of its line, in the place of what `text` holds, in memory that is kept
/// from reply to reply. Where memory is refused `text` may hold anything.
pub fn put_reply(reply: &Reply, text: &mut Vec<u8>) -> Result<(), AllocError>
    ensures { OnOk result (text.new.items ≡ spec.reply_text reply.now) }
{
    text.clear();
    add_reply(text, reply)
}

/// The same for a heartbeat's reply, from the containers that it placed: for these no reply need be made.
pub fn put_placed(placed: &[Placed], text: &mut Vec<u8>) -> Result<(), AllocError>
    ensures { OnOk result (text.new.items ≡ spec.reply_text (reply.Placed placed.now)) }
{
    text.clear();
    add_several(text, placed)
}

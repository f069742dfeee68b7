//! Replies as bytes.

ghost use Rattle.std.specs.Prelude.{◌≡◌, ◌++◌, OnOk, IfOk, IfSome, Some};
ghost use Rattle.ynl_packed.specs.Fits.{FitsProposal, FitsReply};
ghost use Rattle.ynl_packed.specs.Spelling.{option_bytes, proposal_bytes, reply_bytes};
ghost use Rattle.ynl_model.specs.declared.replies.Reply.TheVariants as kind;
ghost use Rattle.ynl_packed.specs.Reading.{Gives, refused_at, placed_at, proposed_at, committed_at, held_at, usage_reply_at, reply_of, reply_at, mapped};

use crate::cursor::Cursor;
use crate::kept::{Kept, items_at, put_items};
use crate::writing::{put_amount, put_long, put_proposal};
use std::alloc::{AllocError, Global};
use ynl_model::{Items, Pending, Placed, Proposal, Reply};
use ynl_resource::{Refusal, Resource};

fn put_proposed(bytes: &mut Vec<u8>, found: &Option<Proposal>) -> Result<(), AllocError>
    ensures put { OnOk result (bytes.new.items
        ≡ bytes.old.items ++ option_bytes proposal_bytes found.now) }
    ensures fits { OnOk result (IfSome found.now FitsProposal) }
{
    match found {
        None => Ok(bytes.push(0)?),
        Some(proposal) => {
            bytes.push(1)?;
            put_proposal(bytes, proposal)
        }
    }
}

fn put_held(
    bytes: &mut Vec<u8>,
    containers: &Items<Placed>,
    asks: &Items<Pending>,
) -> Result<(), AllocError>
    ensures put { OnOk result (bytes.new.items
        ≡ bytes.old.items ++ reply_bytes (kind.Held containers.now asks.now)) }
    ensures fits { OnOk result (FitsReply (kind.Held containers.now asks.now)) }
{
    bytes.push(5)?;
    put_items(bytes, containers)?;
    put_items(bytes, asks)
}

fn put_usage(
    bytes: &mut Vec<u8>,
    used: &Resource,
    guaranteed: &Resource,
    maximum: &Resource,
    masters: &Resource,
    guests: &Resource,
) -> Result<(), AllocError>
    ensures put { OnOk result (bytes.new.items
        ≡ bytes.old.items ++ reply_bytes (kind.Usage used.now guaranteed.now maximum.now masters.now guests.now)) }
    ensures fits { OnOk result
        (FitsReply (kind.Usage used.now guaranteed.now maximum.now masters.now guests.now)) }
{
    bytes.push(6)?;
    put_amount(bytes, used)?;
    put_amount(bytes, guaranteed)?;
    put_amount(bytes, maximum)?;
    put_amount(bytes, masters)?;
    put_amount(bytes, guests)
}

/// Adds a reply. Those of many fields have functions of their own, as a proof of many steps takes long.
pub(crate) fn put_reply(bytes: &mut Vec<u8>, reply: &Reply) -> Result<(), AllocError>
    ensures put { OnOk result (bytes.new.items ≡ bytes.old.items ++ reply_bytes reply.now) }
    ensures fits { OnOk result (FitsReply reply.now) }
{
    match reply {
        Reply::Done => Ok(bytes.push(0)?),
        Reply::Refused(refusal) => {
            bytes.push(1)?;
            put_long(bytes, refusal.word())
        }
        Reply::Placed(containers) => {
            bytes.push(2)?;
            put_items(bytes, containers)
        }
        Reply::Proposed(found) => {
            bytes.push(3)?;
            put_proposed(bytes, found)
        }
        Reply::Committed(container) => {
            bytes.push(4)?;
            container.put(bytes)
        }
        Reply::Held { containers, asks } => put_held(bytes, containers, asks),
        Reply::Usage {
            used,
            guaranteed,
            maximum,
            masters,
            guests,
        } => put_usage(bytes, used, guaranteed, maximum, masters, guests),
    }
}

#[tactic(auto, unfolding(crate::specs::Reading::refused_at))]
fn refused_at(c: &mut Cursor, into: &mut Option<Reply>) -> Option<()>
    ensures { Gives (λ _. (into.new, c.new.rest.now)) result (mapped Some (refused_at c.old.rest.now)) }
{
    let word = c.long()?;
    let refusal = Refusal::from_word(word)?;
    *into = Some(Reply::Refused(refusal));
    Some(())
}

#[tactic(auto, unfolding(crate::specs::Reading::proposed_at))]
fn proposed_at(c: &mut Cursor, into: &mut Option<Reply>) -> Option<()>
    ensures { Gives (λ _. (into.new, c.new.rest.now)) result (mapped Some (proposed_at c.old.rest.now)) }
{
    match c.kind()? {
        0 => *into = Some(Reply::Proposed(None)),
        _ => {
            let proposal = c.proposal()?;
            *into = Some(Reply::Proposed(Some(proposal)));
        }
    }
    Some(())
}

#[tactic(auto, unfolding(crate::specs::Reading::committed_at))]
fn committed_at(c: &mut Cursor, into: &mut Option<Reply>) -> Option<()>
    ensures { Gives (λ _. (into.new, c.new.rest.now)) result (mapped Some (committed_at c.old.rest.now)) }
{
    let container = Placed::at(c)?;
    *into = Some(Reply::Committed(container));
    Some(())
}

#[tactic(auto, unfolding(crate::specs::Reading::usage_reply_at))]
fn usage_at(c: &mut Cursor, into: &mut Option<Reply>) -> Option<()>
    ensures { Gives (λ _. (into.new, c.new.rest.now)) result (mapped Some (usage_reply_at c.old.rest.now)) }
{
    let used = c.amount()?;
    let guaranteed = c.amount()?;
    let maximum = c.amount()?;
    let masters = c.amount()?;
    let guests = c.amount()?;
    *into = Some(Reply::Usage {
        used,
        guaranteed,
        maximum,
        masters,
        guests,
    });
    Some(())
}

#[tactic(auto, unfolding(crate::specs::Reading::placed_at))]
fn placed_at(
    alloc: Global,
    c: &mut Cursor,
    into: &mut Option<Reply>,
) -> Result<Option<()>, AllocError>
    ensures { IfOk result (λ found. Gives (λ _. (into.new, c.new.rest.now)) found (mapped Some (placed_at c.old.rest.now))) }
{
    match items_at(alloc, c)? {
        Some(containers) => {
            *into = Some(Reply::Placed(containers));
            Ok(Some(()))
        }
        None => Ok(None),
    }
}

#[tactic(auto, unfolding(crate::specs::Reading::held_at))]
fn held_at(
    alloc: Global,
    c: &mut Cursor,
    into: &mut Option<Reply>,
) -> Result<Option<()>, AllocError>
    ensures { IfOk result (λ found. Gives (λ _. (into.new, c.new.rest.now)) found (mapped Some (held_at c.old.rest.now))) }
{
    let Some(containers) = items_at(alloc, c)? else {
        return Ok(None);
    };
    match items_at(alloc, c)? {
        Some(asks) => {
            *into = Some(Reply::Held { containers, asks });
            Ok(Some(()))
        }
        None => Ok(None),
    }
}

/// The fields of a reply of this kind.
#[tactic(auto, unfolding(crate::specs::Reading::reply_of))]
fn reply_of(
    alloc: Global,
    kind: u8,
    c: &mut Cursor,
    into: &mut Option<Reply>,
) -> Result<Option<()>, AllocError>
    ensures { IfOk result (λ found. Gives (λ _. (into.new, c.new.rest.now)) found (mapped Some (reply_of kind c.old.rest.now))) }
{
    match kind {
        0 => {
            *into = Some(Reply::Done);
            Ok(Some(()))
        }
        1 => Ok(refused_at(c, into)),
        2 => placed_at(alloc, c, into),
        3 => Ok(proposed_at(c, into)),
        4 => Ok(committed_at(c, into)),
        5 => held_at(alloc, c, into),
        6 => Ok(usage_at(c, into)),
        _ => Ok(None),
    }
}

/// A reply, which is read into a place: its kind, and its fields.
#[tactic(auto, unfolding(crate::specs::Reading::reply_at))]
pub(crate) fn reply_at(
    alloc: Global,
    c: &mut Cursor,
    into: &mut Option<Reply>,
) -> Result<Option<()>, AllocError>
    ensures { IfOk result (λ found. Gives (λ _. (into.new, c.new.rest.now)) found (mapped Some (reply_at c.old.rest.now))) }
{
    match c.kind() {
        Some(kind) => reply_of(alloc, kind, c, into),
        None => Ok(None),
    }
}

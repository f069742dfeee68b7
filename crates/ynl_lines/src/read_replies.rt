//! From objects to replies.

ghost use Rattle.std.specs.Prelude.{◌≡◌, IfOk};
ghost use Rattle.serde_json.specs.View.{items_view};
ghost use Rattle.ynl_fields.specs.Trees.{data_at};
ghost use Rattle.ynl_lines.specs.Reading.{Gives};
ghost use Rattle.ynl_lines.specs.ReadingReplies as spec;

use crate::faults::LineFault;
use crate::read_containers::{each_pending, each_placed, placed_at};
use crate::read_proposals::proposal_at;
use serde_json::Value;
use std::alloc::{AllocError, Global};
use ynl_fields::{Fields, find_word, keys_are, number_at, text_at, within};
use ynl_model::Reply;
use ynl_resource::{Refusal, Resource};

/// Which reply a word names.
#[derive(Clone, Copy)]
pub enum ReplyKind {
    Done,
    Refused,
    Placed,
    Proposal,
    Nothing,
    Committed,
    Held,
    Usage,
}

/// The word of each kind.
const REPLY_KINDS: [(&str, ReplyKind); 8] = [
    ("done", ReplyKind::Done),
    ("refused", ReplyKind::Refused),
    ("placed", ReplyKind::Placed),
    ("proposal", ReplyKind::Proposal),
    ("nothing", ReplyKind::Nothing),
    ("committed", ReplyKind::Committed),
    ("held", ReplyKind::Held),
    ("usage", ReplyKind::Usage),
];

fn reply_kind_of(word: &str) -> Option<ReplyKind>
    ensures { result ≡ spec.reply_kind_of word.now }
{
    find_word(&REPLY_KINDS, word)
}

/// The kind of a reply, from its word.
#[tactic(auto, unfolding(crate::specs::ReadingReplies::reply_kind_at))]
fn reply_kind_at(reply: &Fields<'_, '_>) -> Result<ReplyKind, LineFault>
    ensures { result ≡ spec.reply_kind_at (data_at reply.now.stands) }
{
    let word = text_at(reply, "reply", LineFault::Field)?;
    reply_kind_of(word).ok_or(LineFault::Field)
}

/// The value that is under a key.
#[tactic(auto, unfolding(crate::specs::ReadingReplies::value_under))]
pub fn value_under<'v, 'a>(object: &Fields<'v, 'a>, key: &str) -> Result<Fields<'v, 'a>, LineFault>
    ensures { Gives (λ v. data_at v.stands) result (spec.value_under key.now (data_at object.now.stands)) }
{
    object.get(key).ok_or(LineFault::Field)
}

/// The list that is under a key.
#[tactic(auto, unfolding(crate::specs::ReadingReplies::list_under))]
fn list_under<'v>(object: &Fields<'v, '_>, key: &str) -> Result<&'v Vec<Value>, LineFault>
    ensures { Gives (λ v. items_view v.now.items) result (spec.list_under key.now (data_at object.now.stands)) }
{
    match object.get(key) {
        Some(value) => value.as_array().ok_or(LineFault::Field),
        None => Err(LineFault::Field),
    }
}

/// The most MB, and the most virtual cores, of an amount: 2^49, which no sum of a cluster's sizes passes.
pub const MOST_AMOUNT: u64 = 562949953421312;

/// An amount: MB of memory, and virtual cores.
#[tactic(auto, unfolding(crate::specs::ReadingReplies::amount_at))]
fn amount_at(object: &Fields<'_, '_>) -> Result<Resource, LineFault>
    ensures { result ≡ spec.amount_at (data_at object.now.stands) }
{
    keys_are(object, 2, LineFault::Field)?;
    let memory = number_at(object, "memory", LineFault::Field)?;
    let vcores = number_at(object, "vcores", LineFault::Field)?;
    let memory = within(MOST_AMOUNT, memory, LineFault::Range)?;
    let vcores = within(MOST_AMOUNT, vcores, LineFault::Range)?;
    Ok(Resource { memory, vcores })
}

/// The amount that is under a key.
#[tactic(auto, unfolding(crate::specs::ReadingReplies::amount_under))]
fn amount_under(object: &Fields<'_, '_>, key: &str) -> Result<Resource, LineFault>
    ensures { result ≡ spec.amount_under key.now (data_at object.now.stands) }
{
    let value = value_under(object, key)?;
    amount_at(&value)
}

/// A reply that is its word alone.
#[tactic(auto, unfolding(crate::specs::ReadingReplies::alone))]
fn alone(object: &Fields<'_, '_>, reply: Reply) -> Result<Reply, LineFault>
    ensures { result ≡ spec.alone reply (data_at object.now.stands) }
{
    keys_are(object, 1, LineFault::Field)?;
    Ok(reply)
}

/// `refused`: the event was refused, and why.
#[tactic(auto, unfolding(crate::specs::ReadingReplies::refused_at))]
fn refused_at(object: &Fields<'_, '_>) -> Result<Reply, LineFault>
    ensures { result ≡ spec.refused_at (data_at object.now.stands) }
{
    keys_are(object, 2, LineFault::Field)?;
    let word = text_at(object, "refused", LineFault::Field)?;
    let refusal = Refusal::from_word(word).ok_or(LineFault::Field)?;
    Ok(Reply::Refused(refusal))
}

/// `proposal`: what would be placed.
#[tactic(auto, unfolding(crate::specs::ReadingReplies::proposed_at))]
fn proposed_at(object: &Fields<'_, '_>) -> Result<Reply, LineFault>
    ensures { result ≡ spec.proposed_at (data_at object.now.stands) }
{
    keys_are(object, 2, LineFault::Field)?;
    let value = value_under(object, "proposal")?;
    let proposal = proposal_at(&value)?;
    Ok(Reply::Proposed(Some(proposal)))
}

/// `committed`: the container that a proposal became.
#[tactic(auto, unfolding(crate::specs::ReadingReplies::committed_at))]
fn committed_at(object: &Fields<'_, '_>) -> Result<Reply, LineFault>
    ensures { result ≡ spec.committed_at (data_at object.now.stands) }
{
    keys_are(object, 2, LineFault::Field)?;
    let value = value_under(object, "container")?;
    let container = placed_at(&value)?;
    Ok(Reply::Committed(container))
}

/// `usage`: what a queue uses of a partition.
#[tactic(auto, unfolding(crate::specs::ReadingReplies::usage_reply_at))]
fn usage_reply_at(object: &Fields<'_, '_>) -> Result<Reply, LineFault>
    ensures { result ≡ spec.usage_reply_at (data_at object.now.stands) }
{
    keys_are(object, 6, LineFault::Field)?;
    let used = amount_under(object, "used")?;
    let guaranteed = amount_under(object, "guaranteed")?;
    let maximum = amount_under(object, "maximum")?;
    let masters = amount_under(object, "masters")?;
    let guests = amount_under(object, "guests")?;
    Ok(Reply::Usage {
        used,
        guaranteed,
        maximum,
        masters,
        guests,
    })
}

/// The list that is under a key of an object with so many keys.
#[tactic(auto, unfolding(crate::specs::ReadingReplies::list_of))]
fn list_of<'v>(
    object: &Fields<'v, '_>,
    count: usize,
    key: &str,
) -> Result<&'v Vec<Value>, LineFault>
    ensures { Gives (λ v. items_view v.now.items) result (spec.list_of count key.now (data_at object.now.stands)) }
{
    keys_are(object, count, LineFault::Field)?;
    list_under(object, key)
}

/// `placed`: the containers that a heartbeat placed.
#[tactic(auto, unfolding(crate::specs::ReadingReplies::placed_reply_at))]
fn placed_reply_at(
    alloc: Global,
    object: &Fields<'_, '_>,
) -> Result<Result<Reply, LineFault>, AllocError>
    ensures { IfOk result (λ read. read ≡ spec.placed_reply_at (data_at object.now.stands)) }
{
    let values = match list_of(object, 2, "placed") {
        Ok(values) => values,
        Err(fault) => return Ok(Err(fault)),
    };
    match each_placed(alloc, values)? {
        Ok(containers) => Ok(Ok(Reply::Placed(containers))),
        Err(fault) => Ok(Err(fault)),
    }
}

/// `held`: what an application holds and asks for.
#[tactic(auto, unfolding(crate::specs::ReadingReplies::held_at))]
fn held_at(alloc: Global, object: &Fields<'_, '_>) -> Result<Result<Reply, LineFault>, AllocError>
    ensures { IfOk result (λ read. read ≡ spec.held_at (data_at object.now.stands)) }
{
    let values = match list_of(object, 3, "containers") {
        Ok(values) => values,
        Err(fault) => return Ok(Err(fault)),
    };
    let containers = match each_placed(alloc, values)? {
        Ok(containers) => containers,
        Err(fault) => return Ok(Err(fault)),
    };
    let values = match list_under(object, "asks") {
        Ok(values) => values,
        Err(fault) => return Ok(Err(fault)),
    };
    match each_pending(alloc, values)? {
        Ok(asks) => Ok(Ok(Reply::Held { containers, asks })),
        Err(fault) => Ok(Err(fault)),
    }
}

/// The reply of a kind, from the keys that this kind has.
fn reply_by(
    alloc: Global,
    kind: ReplyKind,
    object: &Fields<'_, '_>,
) -> Result<Result<Reply, LineFault>, AllocError>
    ensures { IfOk result (λ read. read ≡ spec.reply_by kind (data_at object.now.stands)) }
{
    match kind {
        ReplyKind::Done => Ok(alone(object, Reply::Done)),
        ReplyKind::Refused => Ok(refused_at(object)),
        ReplyKind::Placed => placed_reply_at(alloc, object),
        ReplyKind::Proposal => Ok(proposed_at(object)),
        ReplyKind::Nothing => Ok(alone(object, Reply::Proposed(None))),
        ReplyKind::Committed => Ok(committed_at(object)),
        ReplyKind::Held => held_at(alloc, object),
        ReplyKind::Usage => Ok(usage_reply_at(object)),
    }
}

/// The reply of an object.
#[tactic(auto, unfolding(crate::specs::ReadingReplies::reply_at))]
pub fn reply_at(
    alloc: Global,
    object: &Fields<'_, '_>,
) -> Result<Result<Reply, LineFault>, AllocError>
    ensures { IfOk result (λ read. read ≡ spec.reply_at (data_at object.now.stands)) }
{
    match reply_kind_at(object) {
        Ok(kind) => reply_by(alloc, kind, object),
        Err(fault) => Ok(Err(fault)),
    }
}

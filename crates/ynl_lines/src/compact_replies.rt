//! Replies in the compact form. What is read here is a guess: who asks compares the line with the text that is written
//! for it. So contracts say that its numbers are in range, and no more.

ghost use Rattle.std.specs.Prelude.{All, IfOk, IfSome, OnOk};
ghost use Rattle.ynl_resource.specs.Amounts.{IsSize, IsSmall};
ghost use Rattle.ynl_lines.specs.Reading.{HasPriority, HasProposalNumbers};
ghost use Rattle.ynl_lines.specs.ReadingReplies.{HasPendingNumbers, HasPlacedNumbers, IsReplyInRange};

use crate::read_replies::MOST_AMOUNT;
use std::alloc::{AllocError, Global};
use ynl_fields::Cursor;
use ynl_model::{Items, Pending, Placed, Proposal, Reply, What};
use ynl_resource::{Label, MOST_CLOCK, MOST_COUNT, Refusal, Resource};

/// The label, where one is told: that of what was asked for, or of a submit. Nothing is told of a master.
pub fn told_label(line: &mut Cursor<'_>) -> Option<Option<Label>> {
    let mut ahead = *line;
    if !ahead.skips(b",\"label\":") {
        return Some(None);
    }
    Some(Some(line.label(b",\"label\":\"")?))
}

/// What is wanted, from its label and its priority.
fn wanted(line: &mut Cursor<'_>, label: Option<Label>) -> Option<What>
    ensures { IfSome result (λ what. HasPriority what) }
{
    match label {
        None => Some(What::Master),
        Some(label) => {
            let priority = line.small(b",\"priority\":", u32::MAX)?;
            Some(What::Ask(label, priority))
        }
    }
}

/// Cuts the word for what is wanted, which ends an object.
fn ends_as(line: &mut Cursor<'_>, what: &What) -> bool {
    match what {
        What::Master => line.skips(b",\"what\":\"master\"}"),
        What::Ask(_, _) => line.skips(b",\"what\":\"ask\"}"),
    }
}

/// What stands in the lists of replies.
pub trait Cut: Sized {
    /// Its numbers are in range.
    ghost is_ranged: { Self → Type 0 };

    /// Cuts one.
    fn cut(line: &mut Cursor<'_>) -> Option<Self>
        ensures { IfSome result is_ranged };
}

impl Cut for Placed {
    ghost is_ranged = { HasPlacedNumbers };

    fn cut(line: &mut Cursor<'_>) -> Option<Placed> {
        let app = line.name(b"{\"app\":\"")?;
        let id = line.id(b",\"id\":\"")?;
        let label = told_label(line)?;
        let memory = line.number(b",\"memory\":")?;
        let node = line.name(b",\"node\":\"")?;
        let what = wanted(line, label)?;
        let tenant = line.name(b",\"tenant\":\"")?;
        let size = line.size(b",\"vcores\":", memory)?;
        if !ends_as(line, &what) {
            return None;
        }
        Some(Placed {
            id,
            node,
            tenant,
            app,
            what,
            size,
        })
    }
}

impl Cut for Pending {
    ghost is_ranged = { HasPendingNumbers };

    fn cut(line: &mut Cursor<'_>) -> Option<Pending> {
        let count = line.small(b"{\"count\":", MOST_COUNT)?;
        let memory = line.number(b",\"memory\":")?;
        let priority = line.small(b",\"priority\":", u32::MAX)?;
        let size = line.size(b",\"vcores\":", memory)?;
        if !line.skips(b"}") {
            return None;
        }
        Some(Pending {
            priority,
            count,
            size,
        })
    }
}

/// Whether a list ends here; where it goes on, the comma is cut.
fn ends_list(line: &mut Cursor<'_>) -> Option<bool> {
    if line.skips(b"]") {
        Some(true)
    } else if line.skips(b",") {
        Some(false)
    } else {
        None
    }
}

/// Cuts one more of a list, and returns whether it is the last.
fn cut_one<T: Cut + Drop>(
    line: &mut Cursor<'_>,
    list: &mut Vec<T>,
) -> Result<Option<bool>, AllocError>
    requires { All T.is_ranged list.now.items }
    ensures { OnOk result (All T.is_ranged list.new.items) }
{
    match T::cut(line) {
        Some(one) => list.push(one)?,
        None => return Ok(None),
    }
    Ok(ends_list(line))
}

/// Cuts all of a list behind its bracket, up to the one that closes it, and returns whether that is what stands there.
fn cut_all<T: Cut + Drop>(line: &mut Cursor<'_>, list: &mut Vec<T>) -> Result<bool, AllocError>
    requires { All T.is_ranged list.now.items }
    ensures { OnOk result (All T.is_ranged list.new.items) }
{
    if line.skips(b"]") {
        return Ok(true);
    }
    for _ in 0..usize::MAX {
        match cut_one(line, list)? {
            Some(false) => {}
            last => return Ok(last.is_some()),
        }
    }
    Ok(false)
}

/// A list, in memory of its own, which is given back at one place alone where none stands there.
fn cut_list<T: Cut + Drop>(
    alloc: Global,
    line: &mut Cursor<'_>,
) -> Result<Option<Items<T>>, AllocError>
    ensures { IfOk result (λ list. IfSome list (All T.is_ranged)) }
{
    let mut list = Vec::new(alloc);
    if cut_all(line, &mut list)? {
        Ok(Some(Items::new(list)))
    } else {
        Ok(None)
    }
}

pub fn cut_proposal(line: &mut Cursor<'_>) -> Option<Proposal>
    ensures size { IfSome result (λ proposal. IsSize proposal.size) }
    ensures numbers { IfSome result (λ proposal. HasProposalNumbers proposal) }
{
    let app = line.name(b"{\"app\":\"")?;
    let label = told_label(line)?;
    let memory = line.number(b",\"memory\":")?;
    let node = line.name(b",\"node\":\"")?;
    let what = wanted(line, label)?;
    let stamp = line.within(b",\"stamp\":", MOST_CLOCK)?;
    let tenant = line.name(b",\"tenant\":\"")?;
    let size = line.size(b",\"vcores\":", memory)?;
    if !ends_as(line, &what) {
        return None;
    }
    Some(Proposal {
        node,
        stamp,
        tenant,
        app,
        what,
        size,
    })
}

fn cut_amount(line: &mut Cursor<'_>, front: &[u8]) -> Option<Resource>
    ensures { IfSome result (λ amount. IsSmall amount) }
{
    if !line.skips(front) {
        return None;
    }
    let memory = line.within(b"{\"memory\":", MOST_AMOUNT)?;
    let vcores = line.within(b",\"vcores\":", MOST_AMOUNT)?;
    if !line.skips(b"}") {
        return None;
    }
    Some(Resource { memory, vcores })
}

fn cut_usage(line: &mut Cursor<'_>, into: &mut Option<Reply>) -> Option<()>
    ensures { IfSome result (λ _. IfSome into.new IsReplyInRange) }
{
    let guaranteed = cut_amount(line, b"{\"guaranteed\":")?;
    let guests = cut_amount(line, b",\"guests\":")?;
    let masters = cut_amount(line, b",\"masters\":")?;
    let maximum = cut_amount(line, b",\"maximum\":")?;
    let used = cut_amount(line, b",\"reply\":\"usage\",\"used\":")?;
    *into = Some(Reply::Usage {
        used,
        guaranteed,
        maximum,
        masters,
        guests,
    });
    Some(())
}

fn cut_refused(line: &mut Cursor<'_>, into: &mut Option<Reply>) -> Option<()>
    ensures { IfSome result (λ _. IfSome into.new IsReplyInRange) }
{
    let word = line.text(b"{\"refused\":\"")?;
    let refusal = Refusal::from_word(word)?;
    if !line.skips(b",\"reply\":\"refused\"") {
        return None;
    }
    *into = Some(Reply::Refused(refusal));
    Some(())
}

fn cut_found(line: &mut Cursor<'_>, into: &mut Option<Reply>) -> Option<()>
    ensures { IfSome result (λ _. IfSome into.new IsReplyInRange) }
{
    let proposal = cut_proposal(line)?;
    if !line.skips(b",\"reply\":\"proposal\"") {
        return None;
    }
    *into = Some(Reply::Proposed(Some(proposal)));
    Some(())
}

fn cut_committed(line: &mut Cursor<'_>, into: &mut Option<Reply>) -> Option<()>
    ensures { IfSome result (λ _. IfSome into.new IsReplyInRange) }
{
    let container = Placed::cut(line)?;
    if !line.skips(b",\"reply\":\"committed\"") {
        return None;
    }
    *into = Some(Reply::Committed(container));
    Some(())
}

fn cut_several(
    alloc: Global,
    line: &mut Cursor<'_>,
    into: &mut Option<Reply>,
) -> Result<Option<()>, AllocError>
    ensures { IfOk result (λ found. IfSome found (λ _. IfSome into.new IsReplyInRange)) }
{
    let Some(list) = cut_list(alloc, line)? else {
        return Ok(None);
    };
    if !line.skips(b",\"reply\":\"placed\"") {
        return Ok(None);
    }
    *into = Some(Reply::Placed(list));
    Ok(Some(()))
}

fn cut_held(
    alloc: Global,
    line: &mut Cursor<'_>,
    into: &mut Option<Reply>,
) -> Result<Option<()>, AllocError>
    ensures { IfOk result (λ found. IfSome found (λ _. IfSome into.new IsReplyInRange)) }
{
    let Some(asks) = cut_list(alloc, line)? else {
        return Ok(None);
    };
    if !line.skips(b",\"containers\":[") {
        return Ok(None);
    }
    let Some(containers) = cut_list(alloc, line)? else {
        return Ok(None);
    };
    if !line.skips(b",\"reply\":\"held\"") {
        return Ok(None);
    }
    *into = Some(Reply::Held { containers, asks });
    Ok(Some(()))
}

/// Puts the reply of which nothing is told into a place. It stands alone, since a function clears the room of each reply
/// that it makes.
fn put_done(into: &mut Option<Reply>)
    ensures { IfSome into.new IsReplyInRange }
{
    *into = Some(Reply::Done);
}

/// The same of a propose for which there is no proposal.
fn put_nothing(into: &mut Option<Reply>)
    ensures { IfSome into.new IsReplyInRange }
{
    *into = Some(Reply::Proposed(None));
}

/// The reply at the front of a line, but for the brace that ends it: it is put into `into`, since a reply is large.
pub fn cut_reply(
    alloc: Global,
    line: &mut Cursor<'_>,
    into: &mut Option<Reply>,
) -> Result<Option<()>, AllocError>
    ensures { IfOk result (λ found. IfSome found (λ _. IfSome into.new IsReplyInRange)) }
{
    if line.skips(b"{\"reply\":\"done\"") {
        put_done(into);
        Ok(Some(()))
    } else if line.skips(b"{\"placed\":[") {
        cut_several(alloc, line, into)
    } else if line.skips(b"{\"reply\":\"nothing\"") {
        put_nothing(into);
        Ok(Some(()))
    } else if line.skips(b"{\"container\":") {
        Ok(cut_committed(line, into))
    } else if line.skips(b"{\"proposal\":") {
        Ok(cut_found(line, into))
    } else if line.skips(b"{\"asks\":[") {
        cut_held(alloc, line, into)
    } else {
        Ok(cut_rare(line, into))
    }
}

/// The same of a refusal or of what a queue uses.
fn cut_rare(line: &mut Cursor<'_>, into: &mut Option<Reply>) -> Option<()>
    ensures { IfSome result (λ _. IfSome into.new IsReplyInRange) }
{
    let mut ahead = *line;
    if ahead.skips(b"{\"refused\":") {
        cut_refused(line, into)
    } else {
        cut_usage(line, into)
    }
}

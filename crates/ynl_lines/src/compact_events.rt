//! Events in the compact form. What is read here is a guess: who asks compares the line with the text that is written for
//! it. So contracts say that its numbers are in range, and no more.

ghost use Rattle.std.specs.Prelude.{IfSome};
ghost use Rattle.ynl_lines.specs.Reading.{IsRanged};

use crate::compact_replies::{cut_proposal, told_label};
use ynl_fields::Cursor;
use ynl_model::Event;
use ynl_resource::{Hundredths, MOST_COUNT, Name};

/// Where the first byte of a key stands, behind a brace or a comma and a quote.
const KEY: usize = 2;

/// Where the first byte of the word of an event stands, behind its key.
const WORD: usize = 10;

/// A submit, from what stands behind its application.
fn cut_submit(line: &mut Cursor<'_>, app: Name, into: &mut Event) -> Option<()>
    ensures { IfSome result (λ _. IsRanged into.new) }
{
    if !line.skips(b",\"event\":\"submit\"") {
        return None;
    }
    let label = told_label(line)?;
    let memory = line.number(b",\"memory\":")?;
    let queue = line.path(b",\"queue\":\"")?;
    let user = line.name(b",\"user\":\"")?;
    let master = line.size(b",\"vcores\":", memory)?;
    *into = Event::Submit {
        queue,
        app,
        user,
        label,
        master,
    };
    Some(())
}

/// An ask, from what stands behind its application.
fn cut_ask(line: &mut Cursor<'_>, app: Name, into: &mut Event) -> Option<()>
    ensures { IfSome result (λ _. IsRanged into.new) }
{
    let count = line.small(b",\"count\":", MOST_COUNT)?;
    let label = line.label(b",\"event\":\"ask\",\"label\":\"")?;
    let memory = line.number(b",\"memory\":")?;
    let priority = line.small(b",\"priority\":", u32::MAX)?;
    let tenant = line.name(b",\"tenant\":\"")?;
    let size = line.size(b",\"vcores\":", memory)?;
    *into = Event::Ask {
        tenant,
        app,
        label,
        priority,
        count,
        size,
    };
    Some(())
}

/// The end of an application, from what stands behind it.
fn cut_finish(line: &mut Cursor<'_>, app: Name, into: &mut Event) -> Option<()>
    ensures { IfSome result (λ _. IsRanged into.new) }
{
    let tenant = line.name(b",\"event\":\"finish\",\"tenant\":\"")?;
    *into = Event::Finish { tenant, app };
    Some(())
}

/// A poll, from what stands behind its application.
fn cut_poll(line: &mut Cursor<'_>, app: Name, into: &mut Event) -> Option<()>
    ensures { IfSome result (λ _. IsRanged into.new) }
{
    let label = line.label(b",\"event\":\"poll\",\"label\":\"")?;
    let tenant = line.name(b",\"tenant\":\"")?;
    *into = Event::Poll { tenant, app, label };
    Some(())
}

/// An event that begins with the name of an application. Of an ask the count comes next, and of the others the word.
fn cut_of_app(line: &mut Cursor<'_>, into: &mut Event) -> Option<()>
    ensures { IfSome result (λ _. IsRanged into.new) }
{
    let app = line.name(b"{\"app\":\"")?;
    match line.ahead(WORD)? {
        b's' => cut_submit(line, app, into),
        b'f' => cut_finish(line, app, into),
        b'p' => cut_poll(line, app, into),
        _ => cut_ask(line, app, into),
    }
}

fn cut_register(line: &mut Cursor<'_>, into: &mut Event) -> Option<()>
    ensures { IfSome result (λ _. IsRanged into.new) }
{
    let label = line.label(b"{\"event\":\"register\",\"label\":\"")?;
    let memory = line.number(b",\"memory\":")?;
    let node = line.name(b",\"node\":\"")?;
    let size = line.size(b",\"vcores\":", memory)?;
    *into = Event::Register { node, label, size };
    Some(())
}

fn cut_relabel(line: &mut Cursor<'_>, into: &mut Event) -> Option<()>
    ensures { IfSome result (λ _. IsRanged into.new) }
{
    let label = line.label(b"{\"event\":\"relabel\",\"label\":\"")?;
    let node = line.name(b",\"node\":\"")?;
    *into = Event::Relabel { node, label };
    Some(())
}

fn cut_release(line: &mut Cursor<'_>, into: &mut Event) -> Option<()>
    ensures { IfSome result (λ _. IsRanged into.new) }
{
    let id = line.id(b"{\"event\":\"release\",\"id\":\"")?;
    let tenant = line.name(b",\"tenant\":\"")?;
    *into = Event::Release { tenant, id };
    Some(())
}

/// An event whose word begins with `re`.
fn cut_of_r(line: &mut Cursor<'_>, into: &mut Event) -> Option<()>
    ensures { IfSome result (λ _. IsRanged into.new) }
{
    match line.ahead(WORD + 3)? {
        b'i' => cut_register(line, into),
        b'a' => cut_relabel(line, into),
        _ => cut_release(line, into),
    }
}

fn cut_lost(line: &mut Cursor<'_>, into: &mut Event) -> Option<()>
    ensures { IfSome result (λ _. IsRanged into.new) }
{
    let node = line.name(b"{\"event\":\"lost\",\"node\":\"")?;
    *into = Event::Lost { node };
    Some(())
}

fn cut_heartbeat(line: &mut Cursor<'_>, into: &mut Event) -> Option<()>
    ensures { IfSome result (λ _. IsRanged into.new) }
{
    let node = line.name(b"{\"event\":\"heartbeat\",\"node\":\"")?;
    *into = Event::Heartbeat { node };
    Some(())
}

fn cut_exited(line: &mut Cursor<'_>, into: &mut Event) -> Option<()>
    ensures { IfSome result (λ _. IsRanged into.new) }
{
    let id = line.id(b"{\"event\":\"exited\",\"id\":\"")?;
    let node = line.name(b",\"node\":\"")?;
    *into = Event::Exited { node, id };
    Some(())
}

fn cut_stop(line: &mut Cursor<'_>, into: &mut Event) -> Option<()>
    ensures { IfSome result (λ _. IsRanged into.new) }
{
    let queue = line.path(b"{\"event\":\"stop\",\"queue\":\"")?;
    *into = Event::Stop { queue };
    Some(())
}

fn cut_start(line: &mut Cursor<'_>, into: &mut Event) -> Option<()>
    ensures { IfSome result (λ _. IsRanged into.new) }
{
    let queue = line.path(b"{\"event\":\"start\",\"queue\":\"")?;
    *into = Event::Start { queue };
    Some(())
}

/// An event whose word begins with `st`.
fn cut_of_s(line: &mut Cursor<'_>, into: &mut Event) -> Option<()>
    ensures { IfSome result (λ _. IsRanged into.new) }
{
    match line.ahead(WORD + 2)? {
        b'o' => cut_stop(line, into),
        _ => cut_start(line, into),
    }
}

fn cut_usage(line: &mut Cursor<'_>, into: &mut Event) -> Option<()>
    ensures { IfSome result (λ _. IsRanged into.new) }
{
    let label = line.label(b"{\"event\":\"usage\",\"label\":\"")?;
    let queue = line.path(b",\"queue\":\"")?;
    *into = Event::Usage { queue, label };
    Some(())
}

fn cut_propose(line: &mut Cursor<'_>, into: &mut Event) -> Option<()>
    ensures { IfSome result (λ _. IsRanged into.new) }
{
    let node = line.name(b"{\"event\":\"propose\",\"node\":\"")?;
    *into = Event::Propose { node };
    Some(())
}

fn cut_commit(line: &mut Cursor<'_>, into: &mut Event) -> Option<()>
    ensures { IfSome result (λ _. IsRanged into.new) }
{
    if !line.skips(b"{\"event\":\"commit\",\"proposal\":") {
        return None;
    }
    let proposal = cut_proposal(line)?;
    *into = Event::Commit { proposal };
    Some(())
}

fn cut_maximum(line: &mut Cursor<'_>, into: &mut Event) -> Option<()>
    ensures { IfSome result (λ _. IsRanged into.new) }
{
    let label = line.label(b"{\"event\":\"maximum\",\"label\":\"")?;
    let number = line.number(b",\"maximum\":")?;
    let maximum = Hundredths::new(number)?;
    let queue = line.path(b",\"queue\":\"")?;
    *into = Event::Maximum {
        queue,
        label,
        maximum,
    };
    Some(())
}

/// An event that begins with its word, the first byte of which tells most kinds apart.
fn cut_of_word(line: &mut Cursor<'_>, into: &mut Event) -> Option<()>
    ensures { IfSome result (λ _. IsRanged into.new) }
{
    match line.ahead(WORD)? {
        b'r' => cut_of_r(line, into),
        b's' => cut_of_s(line, into),
        b'c' => cut_commit(line, into),
        b'e' => cut_exited(line, into),
        b'h' => cut_heartbeat(line, into),
        b'l' => cut_lost(line, into),
        b'm' => cut_maximum(line, into),
        b'p' => cut_propose(line, into),
        _ => cut_usage(line, into),
    }
}

/// The event at the front of a line, to the brace that ends it: it is put into `into`, since an event is large.
pub fn cut_event(line: &mut Cursor<'_>, into: &mut Event) -> Option<()>
    ensures { IfSome result (λ _. IsRanged into.new) }
{
    match line.ahead(KEY)? {
        b'a' => cut_of_app(line, into)?,
        _ => cut_of_word(line, into)?,
    }
    if !line.skips(b"}") {
        return None;
    }
    Some(())
}

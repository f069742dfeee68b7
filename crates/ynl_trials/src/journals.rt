//! A book that is entered, or goes on from a cluster, at the second try, its audit and its replay.

ghost use Rattle.std.specs.Prelude.{IfOk, IsTrue};
ghost use Rattle.ynl_model.specs.Accepted.{is_accepted};

use crate::cluster;
use crate::values::{HEARTBEAT, NODE, configured, event_of, name, tell_refused};
use std::alloc::Global;
use std::process::Abort;
use ynl_config::{BUILT_IN, read_config};
use ynl_core::{Core, NoMemory, Sighted};
use ynl_journal::{AuditFault, Book, Entry, audit, replay};
use ynl_model::{Event, Reply};
use ynl_resource::Refusal;

// Run with each allocation failing in turn: where memory is refused at the first try, which a line
// tells, the second goes on.
pub(crate) fn opened<R: Print + Abort>(rt: &R, alloc: Global) -> Book {
    match Book::open(alloc, configured(rt, alloc)) {
        Ok(book) => book,
        Err(NoMemory) => {
            tell_refused(rt);
            Book::open(alloc, configured(rt, alloc)).expect(rt, "memory")
        }
    }
}

pub(crate) fn entered<R: Print + Abort>(rt: &R, book: &mut Book, event: &Event) -> (u64, Reply) {
    match book.enter(event) {
        Ok(entered) => entered,
        Err(NoMemory) => {
            tell_refused(rt);
            book.enter(event).expect(rt, "memory")
        }
    }
}

/// What an audit finds.
fn audited<R: Print + Abort>(rt: &R, alloc: Global, entries: &[Entry]) -> Result<(), AuditFault> {
    match audit(&mut cluster::opened(rt, alloc), entries) {
        Err(AuditFault::NoMemory) => {
            tell_refused(rt);
            audit(&mut cluster::opened(rt, alloc), entries)
        }
        found => found,
    }
}

/// The cluster that the entries lead to.
fn replayed<R: Print + Abort>(rt: &R, alloc: Global, entries: &[Entry]) -> Core {
    let mut core = cluster::opened(rt, alloc);
    if replay(&mut core, entries).is_err() {
        tell_refused(rt);
        core = cluster::opened(rt, alloc);
        replay(&mut core, entries).expect(rt, "memory");
    }
    core
}

/// Whether audits and replays say of the book's entries all that they should: without the first event the second is not
/// refused, and nothing would be placed on the node.
fn are_told<R: Print + Abort>(rt: &R, alloc: Global, entries: &[Entry]) -> bool {
    let (_, later) = entries.split_first().expect(rt, "an entry");
    let whole = audited(rt, alloc, entries).is_ok();
    let other = audited(rt, alloc, later) == Err(AuditFault::Differs(1));
    let placed = replayed(rt, alloc, entries).choose(&name(rt, "g1"));
    whole && other && placed.is_none()
}

pub(crate) fn entries_of<R: Print + Abort>(rt: &R, alloc: Global, book: &Book) -> Vec<Entry> {
    match book.entries(alloc) {
        Ok(entries) => entries,
        Err(NoMemory) => {
            tell_refused(rt);
            book.entries(alloc).expect(rt, "memory")
        }
    }
}

/// Enters a propose. Where memory is refused no entry is added.
fn proposed<R: Print + Abort>(rt: &R, book: &mut Book) -> (u64, Sighted) {
    let node = name(rt, "g1");
    let count = book.len();
    match book.enter_propose(&node) {
        Ok(entered) => entered,
        Err(NoMemory) => {
            tell_refused(rt);
            assert!(rt; book.len() == count);
            book.enter_propose(&node).expect(rt, "memory")
        }
    }
}

/// Why a propose is refused that is entered at this place, if it is.
fn refusal_at<R: Print + Abort>(rt: &R, book: &mut Book, place: u64) -> Option<Refusal> {
    let (entered, sighted) = proposed(rt, book);
    assert!(rt; entered == place);
    match &sighted {
        Sighted::Refused(refusal) => Some(*refusal),
        Sighted::Seen(_) => None,
    }
}

/// Whether these are the entries of three events: the first refused, the last left to be planned.
fn are_entered<R: Print + Abort>(rt: &R, alloc: Global, entries: &[Entry]) -> bool {
    match entries {
        [first, second, third] => {
            let replies = first.reply.is_some() && second.reply.is_some() && third.reply.is_none();
            replies && audited(rt, alloc, entries).is_ok()
        }
        _ => false,
    }
}

/// A propose on a node that is not there is entered with its refusal, and one on a node that is without a reply.
#[test]
fn enters_a_propose_at_the_second_try(rt: HostRuntime) {
    let alloc = rt.alloc();
    let mut book = opened(&rt, alloc);
    assert!(rt; refusal_at(&rt, &mut book, 0) == Some(Refusal::NoSuchNode));
    entered(&rt, &mut book, &event_of(&rt, alloc, NODE));
    assert!(rt; refusal_at(&rt, &mut book, 2).is_none());
    assert!(rt; are_entered(&rt, alloc, &entries_of(&rt, alloc, &book)));
}

/// A node joins, and joins again, which is refused; then it is ready for more.
#[test]
fn enters_at_the_second_try(rt: HostRuntime) {
    let alloc = rt.alloc();
    let mut book = opened(&rt, alloc);
    for (place, line) in [NODE, NODE, HEARTBEAT].into_iter().enumerate() {
        let (entered, _reply) = entered(&rt, &mut book, &event_of(&rt, alloc, line));
        assert!(rt; entered == place as u64);
    }
    assert!(rt; book.len() == 3 && are_told(&rt, alloc, &entries_of(&rt, alloc, &book)));
}

fn node_once<R: Abort>(rt: &R, alloc: Global) -> Result<Core, NoMemory>
    ensures { IfOk result (λ core. IsTrue (is_accepted core.config)) }
{
    let read = read_config(alloc, BUILT_IN.as_bytes())?;
    let mut core = Core::open(alloc, read.expect(rt, "a configuration"))?;
    let _joined = core.apply(event_of(rt, alloc, NODE))?;
    Ok(core)
}

/// A cluster with a node, under a configuration that is accepted, as each is that is read.
pub(crate) fn with_node<R: Abort>(rt: &R, alloc: Global) -> Core
    ensures { IsTrue (is_accepted result.config) }
{
    match node_once(rt, alloc) {
        Ok(core) => core,
        Err(NoMemory) => node_once(rt, alloc).expect(rt, "memory"),
    }
}

/// A book that goes on from there.
fn resumed<R: Print + Abort>(rt: &R, alloc: Global) -> Book {
    match Book::resume(alloc, with_node(rt, alloc)) {
        Ok(book) => book,
        Err(NoMemory) => {
            tell_refused(rt);
            Book::resume(alloc, with_node(rt, alloc)).expect(rt, "memory")
        }
    }
}

/// The node of the first event cannot join: it is there already.
#[test]
fn goes_on_at_the_second_try(rt: HostRuntime) {
    let alloc = rt.alloc();
    let mut book = resumed(&rt, alloc);
    let (place, reply) = entered(&rt, &mut book, &event_of(&rt, alloc, NODE));
    assert!(rt; place == 0 && matches!(&reply, Reply::Refused(Refusal::NodeExists)));
}

//! Receipts that are exchanged, altered, missing, there twice or of another scheduler: the journal is not closed,
//! and is where the right ones are handed in after all.

use crate::events::{ended, opened};
use crate::values::{ASK, HEARTBEAT, NODE, POLL, SUBMIT, event_of, keep, two};
use std::alloc::Global;
use std::process::Abort;
use std::sync::Wait;
use ynl_live::{Cause, Live, Receipt, Receipts, Seat, Unclosed, close_for_good};
use ynl_model::{Event, Reply};
use ynl_resource::Refusal;

/// A scheduler, and the seats of its callers.
#[derive(Drop)]
pub(crate) struct Callers {
    pub(crate) live: Live,
    pub(crate) seats: Vec<Seat>,
}

/// What their receipts are made to tell.
#[derive(Clone, Copy)]
enum Tells {
    TheTruth,
    AnotherPlace,
    AnotherEvent,
    AnotherReply,
}

/// Two lists of receipts, and why these do not close the journal. A digit is the receipt of that place. The letters from
/// `a` on are the same six with places that are higher by two, those from `g` on with another event, and those
/// from `m` on with another reply. Those from `s` on are of a scheduler with another node.
type Row = (&'static str, &'static str, Cause);

const ROWS: &[Row] = &[
    // exchanged
    ("204", "135", Cause::Mismatch(0)),
    ("324", "105", Cause::Mismatch(2)),
    ("420", "135", Cause::Mismatch(2)),
    ("524", "130", Cause::Mismatch(2)),
    ("024", "315", Cause::Mismatch(1)),
    ("021", "435", Cause::Mismatch(1)),
    ("024", "531", Cause::Mismatch(3)),
    ("042", "135", Cause::Mismatch(2)),
    ("054", "132", Cause::Mismatch(4)),
    ("024", "153", Cause::Mismatch(3)),
    // there twice
    ("124", "135", Cause::Mismatch(1)),
    ("224", "135", Cause::Mismatch(2)),
    ("324", "135", Cause::Mismatch(2)),
    ("424", "135", Cause::Mismatch(2)),
    ("524", "135", Cause::Mismatch(2)),
    ("004", "135", Cause::Mismatch(0)),
    ("014", "135", Cause::Mismatch(1)),
    ("034", "135", Cause::Mismatch(3)),
    ("044", "135", Cause::Mismatch(4)),
    ("054", "135", Cause::Mismatch(4)),
    ("020", "135", Cause::Mismatch(0)),
    ("021", "135", Cause::Mismatch(1)),
    ("022", "135", Cause::Mismatch(2)),
    ("023", "135", Cause::Mismatch(3)),
    ("025", "135", Cause::Mismatch(5)),
    ("024", "035", Cause::Mismatch(0)),
    ("024", "235", Cause::Mismatch(2)),
    ("024", "335", Cause::Mismatch(3)),
    ("024", "435", Cause::Mismatch(4)),
    ("024", "535", Cause::Mismatch(3)),
    ("024", "105", Cause::Mismatch(0)),
    ("024", "115", Cause::Mismatch(1)),
    ("024", "125", Cause::Mismatch(2)),
    ("024", "145", Cause::Mismatch(4)),
    ("024", "155", Cause::Mismatch(5)),
    ("024", "130", Cause::Mismatch(0)),
    ("024", "131", Cause::Mismatch(1)),
    ("024", "132", Cause::Mismatch(2)),
    ("024", "133", Cause::Mismatch(3)),
    ("024", "134", Cause::Mismatch(4)),
    // missing
    ("24", "135", Cause::ReceiptsMissing),
    ("04", "135", Cause::ReceiptsMissing),
    ("02", "135", Cause::ReceiptsMissing),
    ("024", "35", Cause::ReceiptsMissing),
    ("024", "15", Cause::ReceiptsMissing),
    ("024", "13", Cause::ReceiptsMissing),
    ("24", "0135", Cause::ReceiptsMissing),
    ("0245", "13", Cause::ReceiptsMissing),
    ("0024", "135", Cause::ReceiptsMissing),
    ("024", "135s", Cause::ReceiptsMissing),
    ("", "012345", Cause::ReceiptsMissing),
    // altered, or of another scheduler
    ("a24", "135", Cause::Mismatch(2)),
    ("024", "b35", Cause::Mismatch(3)),
    ("0c4", "135", Cause::Mismatch(4)),
    ("024", "1d5", Cause::Mismatch(5)),
    ("02e", "135", Cause::Mismatch(6)),
    ("024", "13f", Cause::Mismatch(7)),
    ("g24", "135", Cause::Mismatch(0)),
    ("024", "h35", Cause::Mismatch(1)),
    ("0i4", "135", Cause::Mismatch(2)),
    ("024", "1j5", Cause::Mismatch(3)),
    ("02k", "135", Cause::Mismatch(4)),
    ("024", "13l", Cause::Mismatch(5)),
    ("m24", "135", Cause::Mismatch(0)),
    ("024", "n35", Cause::Mismatch(1)),
    ("0o4", "135", Cause::Mismatch(2)),
    ("024", "1p5", Cause::Mismatch(3)),
    ("02q", "135", Cause::Mismatch(4)),
    ("024", "13r", Cause::Mismatch(5)),
    ("s24", "135", Cause::Mismatch(0)),
    ("0u4", "135", Cause::Mismatch(2)),
    ("02w", "135", Cause::Mismatch(4)),
    ("024", "13x", Cause::Mismatch(5)),
    ("suw", "tvx", Cause::Mismatch(0)),
];

/// Neighbours that are exchanged: the places of both lists rise, and each is there once.
const EXCHANGED_NEIGHBOURS: &[(&str, &str)] = &[
    ("124", "035"),
    ("014", "235"),
    ("034", "125"),
    ("023", "145"),
    ("025", "134"),
];

/// A node that registers, and an application that is given its master and a container on `g1`.
const EVENTS: [&str; 6] = [NODE, SUBMIT, HEARTBEAT, ASK, HEARTBEAT, POLL];

/// The same of another node.
const OTHER_NODE: [&str; 6] = [
    r#"{"event":"register","label":"gpu","memory":10000,"node":"g2","vcores":10}"#,
    SUBMIT,
    HEARTBEAT,
    ASK,
    HEARTBEAT,
    POLL,
];

/// An event that nobody calls with.
const OTHER_EVENT: &str =
    r#"{"app":"j7","event":"submit","label":"gpu","memory":1000,"queue":"root.eng.ml","user":"ann","vcores":1}"#;

/// A receipt that is made to tell this.
fn altered(receipt: Receipt, tells: Tells, other: &Event) -> Receipt {
    let Receipt {
        mut place,
        mut event,
        mut reply,
    } = receipt;
    match tells {
        Tells::TheTruth => {}
        Tells::AnotherPlace => place = place.wrapping_add(2),
        Tells::AnotherEvent => event = *other,
        Tells::AnotherReply => reply = Reply::Refused(Refusal::NameUsed),
    }
    Receipt {
        place,
        event,
        reply,
    }
}

/// Two callers that called in turn, three times each. Their receipts are put behind those that are there.
fn two_callers<R: Wait + Print + Abort>(
    rt: &R,
    alloc: Global,
    receipts: &mut Vec<Receipt>,
    lines: &[&str],
    tells: Tells,
) -> Callers {
    let (live, caller) = opened(rt, alloc);
    let seats = two(rt, alloc, caller.seat.split(), caller.seat.split());
    let mut callers = Callers { live, seats };
    let other = event_of(rt, alloc, OTHER_EVENT);
    for (number, line) in lines.iter().enumerate() {
        let seat = callers.seats.get_mut(number % 2).expect(rt, "a seat");
        let event = event_of(rt, alloc, line);
        let receipt = callers.live.call(rt, seat, event).expect(rt, "a receipt");
        keep(rt, receipts, altered(receipt, tells, &other));
    }
    callers
}

/// Two callers, and all receipts that a row has.
fn callers_of_rows<R: Wait + Print + Abort>(
    rt: &R,
    alloc: Global,
    receipts: &mut Vec<Receipt>,
) -> Callers {
    let callers = two_callers(rt, alloc, receipts, &EVENTS, Tells::TheTruth);
    for tells in [
        Tells::AnotherPlace,
        Tells::AnotherEvent,
        Tells::AnotherReply,
    ] {
        two_callers(rt, alloc, receipts, &EVENTS, tells);
    }
    two_callers(rt, alloc, receipts, &OTHER_NODE, Tells::TheTruth);
    callers
}

/// The number of the receipt that a digit or a letter of a row means.
fn number_of(sign: u8) -> usize {
    if sign < b'a' {
        usize::from(sign.wrapping_sub(b'0'))
    } else {
        usize::from(sign.wrapping_sub(b'a')).wrapping_add(6)
    }
}

fn list_of<R: Abort>(rt: &R, alloc: Global, receipts: &[Receipt], signs: &str) -> Receipts {
    let mut list = Receipts::new(alloc);
    for sign in signs.bytes() {
        let receipt = receipts.get(number_of(sign)).expect(rt, "a receipt");
        list.push(receipt).expect(rt, "memory");
    }
    list
}

fn lists_of<R: Abort>(
    rt: &R,
    alloc: Global,
    receipts: &[Receipt],
    first: &str,
    second: &str,
) -> Vec<Receipts> {
    let first = list_of(rt, alloc, receipts, first);
    two(rt, alloc, first, list_of(rt, alloc, receipts, second))
}

/// The journal is not closed, for this cause. All that was handed in comes back.
pub(crate) fn refused<R: Print + Abort>(
    rt: &R,
    alloc: Global,
    callers: Callers,
    lists: &[Receipts],
    wanted: Cause,
) -> Callers {
    let Callers { live, seats } = callers;
    let ended = ended(rt, alloc, live, seats, lists);
    let Unclosed { cause, live, seats } = ended.expect_err(rt, "closed");
    assert!(rt; cause == wanted);
    Callers { live, seats }
}

/// How many entries the closed journal has.
pub(crate) fn closed_by<R: Print + Abort>(
    rt: &R,
    alloc: Global,
    callers: Callers,
    lists: &[Receipts],
) -> usize {
    let Callers { live, seats } = callers;
    ended(rt, alloc, live, seats, lists)
        .ok()
        .expect(rt, "a journal")
}

/// The rows are tried, and then the right receipts.
#[test]
fn closes_where_no_receipt_is_altered(rt: HostRuntime) {
    let alloc = rt.alloc();
    let mut receipts = Vec::new(alloc);
    let mut callers = callers_of_rows(&rt, alloc, &mut receipts);
    for (first, second, cause) in ROWS {
        let lists = lists_of(&rt, alloc, &receipts, first, second);
        callers = refused(&rt, alloc, callers, &lists, *cause);
    }
    let lists = lists_of(&rt, alloc, &receipts, "024", "135");
    assert!(rt; closed_by(&rt, alloc, callers, &lists) == 6);
}

/// Nothing ties a receipt to its seat but the number of calls, and that places rise.
#[test]
fn closes_where_neighbours_are_exchanged(rt: HostRuntime) {
    let alloc = rt.alloc();
    for (first, second) in EXCHANGED_NEIGHBOURS {
        let mut receipts = Vec::new(alloc);
        let callers = two_callers(&rt, alloc, &mut receipts, &EVENTS, Tells::TheTruth);
        let lists = lists_of(&rt, alloc, &receipts, first, second);
        assert!(rt; closed_by(&rt, alloc, callers, &lists) == 6);
    }
}

/// The number of entries of the journal that is closed for good, or the cause for which it is not. Like `closed_once` it has
/// no contract.
fn closed_for_good(alloc: Global, callers: Callers, lists: &[Receipts]) -> Result<usize, Cause> {
    let Callers { live, seats } = callers;
    let closed = close_for_good(alloc, live, &seats, lists)?;
    Ok(closed.entries.len())
}

/// Each row is tried with callers of its own, since nothing comes back.
#[test]
fn closes_for_good_where_no_receipt_is_altered(rt: HostRuntime) {
    let alloc = rt.alloc();
    for (first, second, cause) in ROWS {
        let mut receipts = Vec::new(alloc);
        let callers = callers_of_rows(&rt, alloc, &mut receipts);
        let lists = lists_of(&rt, alloc, &receipts, first, second);
        assert!(rt; closed_for_good(alloc, callers, &lists) == Err(*cause));
    }
    let mut receipts = Vec::new(alloc);
    let callers = two_callers(&rt, alloc, &mut receipts, &EVENTS, Tells::TheTruth);
    let lists = lists_of(&rt, alloc, &receipts, "024", "135");
    assert!(rt; closed_for_good(alloc, callers, &lists) == Ok(6));
}

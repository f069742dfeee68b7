//! A scheduler that is called, or goes on from a cluster, and is closed, a round and a list of events that are run, at the
//! second try.

use crate::events::{Caller, closed, play_script, worked};
use crate::journals::with_node;
use crate::values::{NODE, POLL, SCRIPT, event_of, events_of, one, tell_refused, two};
use crate::workers::{joined, open, run, turns};
use std::alloc::Global;
use std::process::Abort;
use std::sync::Wait;
use std::thread::Threads;
use ynl_core::{Answer, NoMemory, run as run_events};
use ynl_live::{Live, Seat};
use ynl_model::Reply;
use ynl_workers::End;

fn holds_one(reply: &Reply) -> bool {
    match reply {
        Reply::Held { containers, .. } => containers.as_slice().len() == 1,
        _ => false,
    }
}

/// What four events placed is told by a poll, which is the fifth.
#[test]
fn is_called_at_the_second_try(rt: HostRuntime) {
    let alloc = rt.alloc();
    let (live, mut caller) = play_script(&rt, alloc);
    let last = caller.call(&rt, &live, &event_of(&rt, alloc, POLL));
    assert!(rt; last.place == 4 && holds_one(&last.reply));
    assert!(rt; closed(&rt, alloc, live, one(&rt, alloc, caller)) == 5);
}

// Run with each allocation failing in turn: where memory is refused at the first try, which a line
// tells, the second goes on.
fn resumed<R: Print + Abort>(rt: &R, alloc: Global) -> (Live, Seat) {
    match Live::resume(alloc, with_node(rt, alloc)) {
        Ok(resumed) => resumed,
        Err(NoMemory) => {
            tell_refused(rt);
            Live::resume(alloc, with_node(rt, alloc)).expect(rt, "memory")
        }
    }
}

/// A scheduler goes on from a cluster with a node, which cannot join once more, and its journal has that alone.
#[test]
fn goes_on_at_the_second_try(rt: HostRuntime) {
    let alloc = rt.alloc();
    let (live, seat) = resumed(&rt, alloc);
    let mut caller = Caller::new(alloc, seat);
    let receipt = caller.call(&rt, &live, &event_of(&rt, alloc, NODE));
    assert!(rt; receipt.place == 0 && matches!(&receipt.reply, Reply::Refused(_)));
    assert!(rt; closed(&rt, alloc, live, one(&rt, alloc, caller)) == 1);
}

/// Has a worker on the caller's seat go over the node once, and keeps its receipts.
fn go_over<R: Threads + Wait + Sync + Print + Abort>(
    rt: &R,
    alloc: Global,
    live: &Live,
    caller: Caller,
) -> (Caller, End) {
    let Caller { seat, receipts } = caller;
    let seats = one(rt, alloc, seat);
    let lists = one(rt, alloc, turns(rt, alloc, 1));
    let mut ends = run(rt, alloc, live, seats, &lists, &open());
    let worker = ends.pop().expect(rt, "a worker");
    let end = worker.end;
    (joined(rt, receipts, worker), end)
}

/// The worker of a round, with all its receipts. One that was refused memory did what its receipts tell, and goes over its
/// node once more.
fn whole_worker<R: Threads + Wait + Sync + Print + Abort>(
    rt: &R,
    alloc: Global,
    live: &Live,
    seat: Seat,
) -> Caller {
    let (caller, end) = go_over(rt, alloc, live, Caller::new(alloc, seat));
    if end == End::Whole {
        return caller;
    }
    tell_refused(rt);
    assert!(rt; end == End::NoMemory && caller.receipts.len() < 2);
    let (caller, end) = go_over(rt, alloc, live, caller);
    assert!(rt; end == End::Whole);
    caller
}

/// The journal has the script, and all that the worker's receipts tell.
#[test]
fn round_is_run_at_the_second_try(rt: HostRuntime) {
    let alloc = rt.alloc();
    let (live, caller) = play_script(&rt, alloc);
    let worker = whole_worker(&rt, alloc, &live, caller.seat.split());
    let entries = worker.receipts.len().saturating_add(caller.receipts.len());
    let callers = two(&rt, alloc, caller, worker);
    assert!(rt; closed(&rt, alloc, live, callers) == entries);
}

fn is_answered(answer: &Answer) -> bool {
    matches!(answer, Answer::Replied(_))
}

/// Whether a run answers each event of the script.
fn is_run<R: Abort>(rt: &R, alloc: Global) -> Result<bool, NoMemory> {
    let events = events_of(rt, alloc, &SCRIPT);
    let ran = run_events(alloc, worked(rt, alloc)?, &events)?;
    Ok(ran.answers.as_slice().iter().all(is_answered))
}

#[test]
fn events_are_run_at_the_second_try(rt: HostRuntime) {
    let alloc = rt.alloc();
    if is_run(&rt, alloc) != Ok(true) {
        tell_refused(&rt);
        assert!(rt; is_run(&rt, alloc) == Ok(true));
    }
}

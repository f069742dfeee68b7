//! Proposals that are planned from what was seen under the lock, and their receipts.

use crate::events::{Caller, closed, opened, play_script};
use crate::receipts::{Callers, closed_by, refused};
use crate::values::{HEARTBEAT, event_of, label, name, one, size, tell_refused, two};
use std::alloc::Global;
use std::process::Abort;
use std::sync::Wait;
use ynl_core::Sighted;
use ynl_live::{CallFault, Cause, Live, Receipt, Seat};
use ynl_model::{Event, Proposal, Reply, What};
use ynl_resource::{Name, Refusal};
use ynl_sights::plan;

// Run with each allocation failing in turn: where memory is refused at the first try, which a line
// tells, the second sees the same at the same place.
fn seen<R: Wait + Print + Abort>(
    rt: &R,
    live: &Live,
    seat: &mut Seat,
    node: &Name,
) -> (u64, Sighted) {
    let (calls, front) = (seat.calls(), seat.front());
    match live.sight(rt, seat, node) {
        Ok(seen) => seen,
        Err(_) => {
            tell_refused(rt);
            assert!(rt; seat.calls() == calls && seat.front() == front);
            live.sight(rt, seat, node).expect(rt, "a sight")
        }
    }
}

/// The receipt of a propose, with the reply that is worked out from what is seen.
fn planned<R: Wait + Print + Abort>(rt: &R, live: &Live, seat: &mut Seat) -> Receipt {
    let node = name(rt, "g1");
    let (place, sighted) = seen(rt, live, seat, &node);
    let reply = match &sighted {
        Sighted::Refused(refusal) => Reply::Refused(*refusal),
        Sighted::Seen(sight) => Reply::Proposed(plan(sight)),
    };
    Receipt {
        place,
        event: Event::Propose { node },
        reply,
    }
}

/// The proposal of the first of two containers that the script's application asks for.
fn first_asked<R: Abort>(rt: &R) -> Proposal {
    Proposal {
        node: name(rt, "g1"),
        stamp: 2,
        tenant: name(rt, "eng"),
        app: name(rt, "j1"),
        what: What::Ask(label(rt, "gpu"), 1),
        size: size(rt, 2000, 2),
    }
}

fn proposes(receipt: &Receipt, proposal: &Proposal) -> bool {
    match &receipt.reply {
        Reply::Proposed(Some(planned)) => planned == proposal,
        _ => false,
    }
}

/// A proposal that was planned before a heartbeat of another caller, and its commit after it, on the first seat. The
/// receipts of the last caller tell that nothing is proposed.
fn overtake<R: Wait + Print + Abort>(
    rt: &R,
    alloc: Global,
    live: &Live,
    first: &mut Caller,
    other: &mut Caller,
    wrong: &mut Caller,
) {
    let proposal = first_asked(rt);
    let receipt = planned(rt, live, &mut first.seat);
    other.call(rt, live, &event_of(rt, alloc, HEARTBEAT));
    assert!(rt; receipt.place == 4 && proposes(&receipt, &proposal));
    first.keep(rt, &receipt);
    let commit = first.call(rt, live, &Event::Commit { proposal });
    assert!(rt; matches!(&commit.reply, Reply::Refused(Refusal::Stale)));
    let Receipt { place, event, .. } = receipt;
    let reply = Reply::Proposed(None);
    wrong.keep(
        rt,
        &Receipt {
            place,
            event,
            reply,
        },
    );
    wrong.keep(rt, &commit);
}

/// Another reply than the choice of that moment is a mismatch at its place, and the plan's is none.
#[test]
fn is_planned_at_the_second_try(rt: HostRuntime) {
    let alloc = rt.alloc();
    let (live, mut first) = play_script(&rt, alloc);
    let (_alike, mut wrong) = play_script(&rt, alloc);
    let mut other = Caller::new(alloc, first.seat.split());
    overtake(&rt, alloc, &live, &mut first, &mut other, &mut wrong);
    let Caller { seat, receipts } = first;
    let mut lists = two(&rt, alloc, wrong.receipts, other.receipts);
    let seats = two(&rt, alloc, seat, other.seat);
    let callers = Callers { live, seats };
    let callers = refused(&rt, alloc, callers, &lists, Cause::Mismatch(4));
    let others = lists.pop().expect(&rt, "a list");
    let lists = two(&rt, alloc, receipts, others);
    assert!(rt; closed_by(&rt, alloc, callers, &lists) == 7);
}

/// The receipt of a propose on a node that is not there. Its seat sees nothing of another scheduler, and stays as it is.
fn sees_nothing<R: Wait + Print + Abort>(rt: &R, first: &Live, other: &Live, caller: &mut Caller) {
    let receipt = planned(rt, first, &mut caller.seat);
    assert!(rt; matches!(&receipt.reply, Reply::Refused(Refusal::NoSuchNode)));
    caller.keep(rt, &receipt);
    let fault = other.sight(rt, &mut caller.seat, &name(rt, "g1")).err();
    assert!(rt; fault == Some(CallFault::Behind(0)));
    assert!(rt; caller.seat.calls() == 1 && caller.seat.front() == 1);
}

#[test]
fn a_seat_of_another_sees_nothing(rt: HostRuntime) {
    let alloc = rt.alloc();
    let (first, mut caller) = opened(&rt, alloc);
    let (other, own) = opened(&rt, alloc);
    sees_nothing(&rt, &first, &other, &mut caller);
    assert!(rt; closed(&rt, alloc, other, one(&rt, alloc, own)) == 0);
    assert!(rt; closed(&rt, alloc, first, one(&rt, alloc, caller)) == 1);
}

//! Callers in four threads, and for what causes their journal is not closed.

use crate::events::{Caller, closed, handed_in, opened};
use crate::receipts::{Callers, closed_by, refused};
use crate::values::{NODE, event_of, keep, numbered, one};
use std::alloc::Global;
use std::process::Abort;
use std::sync::Wait;
use std::thread;
use std::thread::Threads;
use ynl_live::{CallFault, Cause, Live, Receipts};

/// Submits an application of its own, and polls it.
const TWO_EVENTS: [&str; 2] = [
    r#"{"app":"a%","event":"submit","label":"gpu","memory":1,"queue":"root.eng.ml","user":"ann","vcores":1}"#,
    r#"{"app":"a%","event":"poll","label":"gpu","tenant":"eng"}"#,
];

/// Calls a hundred times.
fn call_hundred<R: Wait + Print + Abort>(
    rt: &R,
    alloc: Global,
    live: &Live,
    caller: &mut Caller,
    which: u64,
) {
    for number in 0..50 {
        for line in TWO_EVENTS {
            let number = which.wrapping_mul(50).wrapping_add(number);
            caller.call(rt, live, &numbered(rt, alloc, line, number));
        }
    }
}

/// A scheduler that four threads called, and their lists of receipts.
fn four_callers<R: Threads + Wait + Print + Abort + Sync>(
    rt: &R,
    alloc: Global,
) -> (Callers, Vec<Receipts>) {
    let (live, first) = opened(rt, alloc);
    let mut callers = Vec::new(alloc);
    for _ in 0..4 {
        keep(rt, &mut callers, Caller::new(alloc, first.seat.split()));
    }
    thread::for_each_mut(
        rt,
        callers.as_mut_slice(),
        4,
        &|which, caller: &mut Caller| call_hundred(rt, alloc, &live, caller, which as u64),
    );
    let (seats, lists) = handed_in(rt, alloc, callers);
    (Callers { live, seats }, lists)
}

#[test]
fn closes_with_all_seats_and_receipts(rt: HostRuntime) {
    let alloc = rt.alloc();
    let (mut callers, mut lists) = four_callers(&rt, alloc);
    let seat = callers.seats.pop().expect(&rt, "a seat");
    let list = lists.pop().expect(&rt, "a list");
    let mut callers = refused(&rt, alloc, callers, &lists, Cause::SeatsMissing);
    keep(&rt, &mut callers.seats, seat);
    let callers = refused(&rt, alloc, callers, &lists, Cause::ReceiptsMissing);
    keep(&rt, &mut lists, list);
    assert!(rt; closed_by(&rt, alloc, callers, &lists) == 400);
}

/// A seat that made a call on the first is behind on the other, and stays as it is.
#[test]
fn a_seat_of_another_is_behind(rt: HostRuntime) {
    let alloc = rt.alloc();
    let (first, mut caller) = opened(&rt, alloc);
    let (other, own) = opened(&rt, alloc);
    let event = event_of(&rt, alloc, NODE);
    caller.call(&rt, &first, &event);
    let fault = other.call(&rt, &mut caller.seat, event).err();
    assert!(rt; fault == Some(CallFault::Behind(0)));
    assert!(rt; caller.seat.calls() == 1 && caller.seat.front() == 1);
    assert!(rt; closed(&rt, alloc, other, one(&rt, alloc, own)) == 0);
}

//! A scheduler of two tenants, and its callers.

use crate::receipts::{Callers, closed_by};
use crate::values::{SCRIPT, event_of, keep, tell_refused};
use std::alloc::Global;
use std::process::Abort;
use std::sync::Wait;
use ynl_config::read_config;
use ynl_core::NoMemory;
use ynl_live::{Cause, Live, Receipt, Receipts, Seat, Unclosed, close};
use ynl_model::Event;
use ynl_queues::Config;

/// Two tenants: eng has gpu for itself alone, in two leaves, and mkt has ssd, which is lent.
const WORKED: &str = "\
version = 1
[[label]]
name = \"gpu\"
[[label]]
name = \"ssd\"
exclusive = false
[[queue]]
path = \"root.eng\"
capacity = 60
accessible-node-labels = \"gpu\"
[queue.label.gpu]
capacity = 100
[[queue]]
path = \"root.eng.ml\"
capacity = 50
[queue.label.gpu]
capacity = 70
[[queue]]
path = \"root.eng.etl\"
capacity = 50
user-limit-factor = 200
[queue.label.gpu]
capacity = 30
maximum-capacity = 50
[[queue]]
path = \"root.mkt\"
capacity = 40
maximum-capacity = 50
accessible-node-labels = \"ssd\"
[queue.label.ssd]
capacity = 100
";

pub(crate) fn worked<R: Abort>(rt: &R, alloc: Global) -> Result<Config, NoMemory> {
    let read = read_config(alloc, WORKED.as_bytes())?;
    Ok(read.expect(rt, "a configuration"))
}

fn open<R: Abort>(rt: &R, alloc: Global) -> Result<(Live, Seat), NoMemory> {
    Live::open(alloc, worked(rt, alloc)?)
}

// Run with each allocation failing in turn: where memory is refused at the first try, which a line
// tells, the second goes on.
pub(crate) fn opened<R: Print + Abort>(rt: &R, alloc: Global) -> (Live, Caller) {
    let (live, seat) = match open(rt, alloc) {
        Ok(opened) => opened,
        Err(NoMemory) => {
            tell_refused(rt);
            open(rt, alloc).expect(rt, "memory")
        }
    };
    (live, Caller::new(alloc, seat))
}

/// A seat, and the receipts of its calls.
#[derive(Drop)]
pub(crate) struct Caller {
    pub(crate) seat: Seat,
    pub(crate) receipts: Receipts,
}

impl Caller {
    pub(crate) fn new(alloc: Global, seat: Seat) -> Caller {
        Caller {
            seat,
            receipts: Receipts::new(alloc),
        }
    }

    /// Keeps a receipt of its seat.
    pub(crate) fn keep<R: Abort>(&mut self, rt: &R, receipt: &Receipt) {
        if self.receipts.push(receipt).is_err() {
            self.receipts.push(receipt).expect(rt, "memory");
        }
    }

    /// Calls, and keeps the receipt. The seat is as it was where memory is refused.
    pub(crate) fn call<R: Wait + Print + Abort>(
        &mut self,
        rt: &R,
        live: &Live,
        event: &Event,
    ) -> Receipt {
        let (calls, front) = (self.seat.calls(), self.seat.front());
        let receipt = match live.call(rt, &mut self.seat, *event) {
            Ok(receipt) => receipt,
            Err(_) => {
                tell_refused(rt);
                assert!(rt; self.seat.calls() == calls && self.seat.front() == front);
                live.call(rt, &mut self.seat, *event)
                    .expect(rt, "a receipt")
            }
        };
        self.keep(rt, &receipt);
        receipt
    }
}

/// A scheduler that was called with the script, by one caller: each event has the next place.
pub(crate) fn play_script<R: Wait + Print + Abort>(rt: &R, alloc: Global) -> (Live, Caller) {
    let (live, mut caller) = opened(rt, alloc);
    for (place, line) in SCRIPT.iter().enumerate() {
        let receipt = caller.call(rt, &live, &event_of(rt, alloc, line));
        assert!(rt; receipt.place == place as u64);
    }
    (live, caller)
}

/// The seats of callers and their lists, as they are handed in.
pub(crate) fn handed_in<R: Abort>(
    rt: &R,
    alloc: Global,
    callers: Vec<Caller>,
) -> (Vec<Seat>, Vec<Receipts>) {
    let mut seats = Vec::new(alloc);
    let mut lists = Vec::new(alloc);
    for caller in callers {
        let Caller { seat, receipts } = caller;
        keep(rt, &mut seats, seat);
        keep(rt, &mut lists, receipts);
    }
    (seats, lists)
}

/// The number of entries of the closed journal, or what comes back at a cause. It has no contract, since that of
/// `close` would stand in the proof of each test.
fn closed_once(
    alloc: Global,
    live: Live,
    seats: Vec<Seat>,
    lists: &[Receipts],
) -> Result<usize, Unclosed> {
    let closed = close(alloc, live, seats, lists)?;
    Ok(closed.entries.len())
}

/// The same; at the second try where memory is refused, which a line tells.
pub(crate) fn ended<R: Print + Abort>(
    rt: &R,
    alloc: Global,
    live: Live,
    seats: Vec<Seat>,
    lists: &[Receipts],
) -> Result<usize, Unclosed> {
    match closed_once(alloc, live, seats, lists) {
        Err(
            Unclosed {
                cause: Cause::NoMemory,
                live,
                seats,
            },
        ) => {
            tell_refused(rt);
            closed_once(alloc, live, seats, lists)
        }
        ended => ended,
    }
}

/// The number of entries of the closed journal of these callers.
pub(crate) fn closed<R: Print + Abort>(
    rt: &R,
    alloc: Global,
    live: Live,
    callers: Vec<Caller>,
) -> usize {
    let (seats, lists) = handed_in(rt, alloc, callers);
    closed_by(rt, alloc, Callers { live, seats }, &lists)
}

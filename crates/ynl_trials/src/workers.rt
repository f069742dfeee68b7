//! Workers that overlap, and that are halted.

ghost use Rattle.std.specs.Prelude.{◌≡◌, length, vec_len};

use crate::events::{Caller, closed, play_script};
use crate::values::{id, keep, name, one, tell_refused, two};
use std::alloc::Global;
use std::process::Abort;
use std::rt::Clock;
use std::sync::Wait;
use std::sync::atomic::{AtomicU64, Ordering};
use std::thread;
use std::thread::Threads;
use std::time::Duration;
use ynl_live::{Live, Receipts, Seat};
use ynl_model::Reply;
use ynl_resource::{Name, Refusal};
use ynl_workers::{End, Gate, Go, Sight, Unrun, WorkerEnd, run_round};

/// Worker 1 waits before its commit until worker 0 is before its plan, or before its own commit, and worker 0
/// waits there until worker 1's commit is answered. Each wait ends after ten seconds, and is then told to be late.
struct Overlap<'a, R> {
    rt: &'a R,
    in_plan: bool,
    met: AtomicU64,
    committed: AtomicU64,
    late: AtomicU64,
}

impl<R> Drop for Overlap<'_, R> {
    fn drop(self) {
        let Overlap {
            rt: _,
            in_plan: _,
            met: _,
            committed: _,
            late: _,
        } = self;
    }
}

impl<'a, R: Clock> Overlap<'a, R> {
    fn new(rt: &'a R, in_plan: bool) -> Overlap<'a, R> {
        Overlap {
            rt,
            in_plan,
            met: AtomicU64::new(0),
            committed: AtomicU64::new(0),
            late: AtomicU64::new(0),
        }
    }

    fn wait_for(&self, told: &AtomicU64) {
        for _ in 0..10_000 {
            if told.load(Ordering::SeqCst) > 0 {
                return;
            }
            thread::sleep(self.rt, Duration::from_millis(1));
        }
        self.late.store(1, Ordering::SeqCst);
    }

    fn overlap(&self) {
        self.met.store(1, Ordering::SeqCst);
        self.wait_for(&self.committed);
    }
}

impl<R: Clock> Gate for Overlap<'_, R> {
    ghost is_free = { λ _. Unit {0} };

    fn before_plan(&self, worker: u64, _turn: u64, _sight: &Sight) {
        if self.in_plan && worker == 0 {
            self.overlap();
        }
    }

    fn before_commit(&self, worker: u64, _turn: u64) -> Go {
        if worker == 1 {
            self.wait_for(&self.met);
        } else if !self.in_plan {
            self.overlap();
        }
        Go::On
    }

    fn after_commit(&self, worker: u64, _turn: u64) {
        if worker == 1 {
            self.committed.store(1, Ordering::SeqCst);
        }
    }
}

/// Halts each worker at this turn, and notes the turns for which it was asked and told: one digit of a
/// number each.
#[derive(Drop)]
pub(crate) struct HaltsAt {
    turn: u64,
    asked: AtomicU64,
    told: AtomicU64,
}

impl HaltsAt {
    pub(crate) fn turn(turn: u64) -> HaltsAt {
        HaltsAt {
            turn,
            asked: AtomicU64::new(0),
            told: AtomicU64::new(0),
        }
    }

    /// What it was asked, and what it was told.
    pub(crate) fn noted(&self) -> (u64, u64) {
        let asked = self.asked.load(Ordering::SeqCst);
        (asked, self.told.load(Ordering::SeqCst))
    }
}

/// The digit of a turn: from the right those of worker 0's first and second, and of worker 1's.
fn digit_of(worker: u64, turn: u64) -> u64 {
    match (worker, turn) {
        (0, 0) => 1,
        (0, 1) => 10,
        (1, 0) => 100,
        (1, 1) => 1000,
        _ => 10_000,
    }
}

impl Gate for HaltsAt {
    ghost is_free = { λ _. ⊥ };

    fn before_plan(&self, _worker: u64, _turn: u64, _sight: &Sight) {}

    fn before_commit(&self, worker: u64, turn: u64) -> Go {
        self.asked
            .fetch_add(digit_of(worker, turn), Ordering::SeqCst);
        if turn == self.turn { Go::Halt } else { Go::On }
    }

    fn after_commit(&self, worker: u64, turn: u64) {
        self.told
            .fetch_add(digit_of(worker, turn), Ordering::SeqCst);
    }
}

/// Lets each worker go on. It is a gate of the same type, since what is generic is proved for each that it is
/// called with.
pub(crate) fn open() -> HaltsAt {
    HaltsAt::turn(u64::MAX)
}

/// The node so many times.
pub(crate) fn turns<R: Abort>(rt: &R, alloc: Global, count: usize) -> Vec<Name> {
    let mut turns = Vec::new(alloc);
    for _ in 0..count {
        keep(rt, &mut turns, name(rt, "g1"));
    }
    turns
}

/// A round of workers; where memory is refused, which a line tells, at the second try. It has no contract, since that of
/// `run_round` would stand in the proof of each test.
pub(crate) fn run<R: Threads + Wait + Sync + Print + Abort, G: Gate + Sync>(
    rt: &R,
    alloc: Global,
    live: &Live,
    seats: Vec<Seat>,
    lists: &[Vec<Name>],
    gate: &G,
) -> Vec<WorkerEnd>
    requires { length lists.now ≡ vec_len seats }
{
    match run_round(rt, alloc, live, seats, lists, gate) {
        Ok(ends) => ends,
        Err(Unrun { seats }) => {
            tell_refused(rt);
            run_round(rt, alloc, live, seats, lists, gate)
                .ok()
                .expect(rt, "memory")
        }
    }
}

/// The worker's seat, with its receipts behind these.
pub(crate) fn joined<R: Abort>(rt: &R, receipts: Receipts, worker: WorkerEnd) -> Caller {
    let WorkerEnd {
        seat,
        receipts: more,
        ..
    } = worker;
    let mut caller = Caller { seat, receipts };
    for receipt in &more {
        caller.keep(rt, receipt);
    }
    caller
}

/// The callers of the script and of a round.
fn gathered<R: Abort>(rt: &R, alloc: Global, first: Caller, ends: Vec<WorkerEnd>) -> Vec<Caller> {
    let mut callers = one(rt, alloc, first);
    for worker in ends {
        keep(rt, &mut callers, joined(rt, Receipts::new(alloc), worker));
    }
    callers
}

/// The last reply of a worker.
fn last_reply<'a, R: Abort>(rt: &R, worker: &'a WorkerEnd) -> &'a Reply {
    &worker.receipts.last().expect(rt, "a receipt").reply
}

/// Whether the first of two workers is stale, and the other one's container is committed.
fn are_overlapped<R: Abort>(rt: &R, ends: &[WorkerEnd]) -> bool {
    match ends {
        [first, last] => is_stale(rt, first) && is_committed_as(rt, last, "gpu#3"),
        _ => false,
    }
}

fn is_stale<R: Abort>(rt: &R, worker: &WorkerEnd) -> bool {
    matches!(last_reply(rt, worker), Reply::Refused(Refusal::Stale))
}

fn is_committed_as<R: Abort>(rt: &R, worker: &WorkerEnd, text: &str) -> bool {
    match last_reply(rt, worker) {
        Reply::Committed(container) => container.id == id(rt, text),
        _ => false,
    }
}

/// The ends of two workers, which have a turn each.
fn ends_of_two<R: Threads + Wait + Print + Abort + Clock + Sync>(
    rt: &R,
    alloc: Global,
    live: &Live,
    seat: &Seat,
    in_plan: bool,
) -> Vec<WorkerEnd> {
    let seats = two(rt, alloc, seat.split(), seat.split());
    let lists = two(rt, alloc, turns(rt, alloc, 1), turns(rt, alloc, 1));
    let gate = Overlap::new(rt, in_plan);
    let ends = run(rt, alloc, live, seats, &lists, &gate);
    assert!(rt; gate.late.load(Ordering::SeqCst) == 0);
    ends
}

/// The first of two workers is stale, and the other's container is committed.
fn two_that_overlap<R: Threads + Wait + Print + Abort + Clock + Sync>(
    rt: &R,
    alloc: Global,
    in_plan: bool,
) {
    let (live, caller) = play_script(rt, alloc);
    let ends = ends_of_two(rt, alloc, &live, &caller.seat, in_plan);
    assert!(rt; are_overlapped(rt, &ends));
    assert!(rt; closed(rt, alloc, live, gathered(rt, alloc, caller, ends)) == 8);
}

#[test]
fn workers_overlap_before_the_commit(rt: HostRuntime) {
    two_that_overlap(&rt, rt.alloc(), false);
}

/// While worker 0 is about to plan, with its copy of what the choice reads, worker 1 plans and commits: worker 0 has no lock,
/// or worker 1's commit would be late.
#[test]
fn workers_overlap_before_the_plan(rt: HostRuntime) {
    two_that_overlap(&rt, rt.alloc(), true);
}

/// A round of one worker over three turns on the node, which is halted at one of them, ends so, with so many receipts. The
/// closed journal has those, and the script.
fn halt_at<R: Threads + Wait + Print + Abort + Sync>(
    rt: &R,
    alloc: Global,
    turn: u64,
    end: End,
    receipts: usize,
) {
    let (live, caller) = play_script(rt, alloc);
    let seats = one(rt, alloc, caller.seat.split());
    let lists = one(rt, alloc, turns(rt, alloc, 3));
    let ends = run(rt, alloc, &live, seats, &lists, &HaltsAt::turn(turn));
    assert!(rt; has_ended(&ends, end, receipts));
    let entries = closed(rt, alloc, live, gathered(rt, alloc, caller, ends));
    assert!(rt; entries.saturating_sub(4) == receipts);
}

fn has_ended(ends: &[WorkerEnd], end: End, receipts: usize) -> bool {
    match ends {
        [worker] => worker.end == end && worker.receipts.len() == receipts,
        _ => false,
    }
}

// A worker is halted before the commit. Two containers are asked for: the third propose is answered none, so no gate
// is met there.
#[test]
fn a_halted_workers_journal_is_closed(rt: HostRuntime) {
    let alloc = rt.alloc();
    halt_at(&rt, alloc, 0, End::Halted, 1);
    halt_at(&rt, alloc, 1, End::Halted, 3);
    halt_at(&rt, alloc, 2, End::Whole, 5);
}

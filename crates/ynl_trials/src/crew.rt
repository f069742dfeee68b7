//! Rounds of workers.

use crate::events::Caller;
use crate::values::{keep, name};
use crate::watch::watched;
use crate::workers::{joined, run};
use std::alloc::Global;
use std::process::Abort;
use std::rt::Clock;
use std::sync::Wait;
use std::thread::Threads;
use ynl_live::{Live, Receipts, Seat};
use ynl_resource::Name;
use ynl_workers::{End, Gate};

/// As many nodes are gone over in a round, if there are so many.
const IN_A_ROUND: usize = 128;

/// Workers that go over some of the nodes in each round, and all seats and receipts that they handed back.
#[derive(Drop)]
pub(crate) struct Crew {
    alloc: Global,
    seat: Seat,
    workers: u64,
    nodes: Vec<Name>,
    pub(crate) callers: Vec<Caller>,
    /// The longest commit, in microseconds.
    pub(crate) longest: u64,
}

/// As many names, n0, n1 and so on.
fn names<R: Abort>(rt: &R, alloc: Global, count: u64) -> Vec<Name> {
    let mut names = Vec::new(alloc);
    for number in 0..count {
        let text = format!(in alloc; "n{number}").expect(rt, "memory");
        keep(rt, &mut names, name(rt, &text));
    }
    names
}

impl Crew {
    pub(crate) fn new<R: Abort>(
        rt: &R,
        alloc: Global,
        seat: Seat,
        workers: u64,
        count: u64,
    ) -> Crew {
        Crew {
            alloc,
            seat,
            workers,
            nodes: names(rt, alloc, count),
            callers: Vec::new(alloc),
            longest: 0,
        }
    }

    /// The nodes of a round, dealt out to the workers in turn.
    fn deal<R: Abort>(&self, rt: &R, round: u64) -> Vec<Vec<Name>> {
        let mut lists = Vec::new(self.alloc);
        for _ in 0..self.workers {
            keep(rt, &mut lists, Vec::new(self.alloc));
        }
        let count = lists.len();
        let first = (round as usize)
            .wrapping_mul(IN_A_ROUND)
            .checked_rem(self.nodes.len())
            .unwrap_or(0);
        for (i, node) in self.nodes.iter().skip(first).take(IN_A_ROUND).enumerate() {
            if let Some(list) = lists.get_mut(i.checked_rem(count).unwrap_or(0)) {
                keep(rt, list, *node);
            }
        }
        lists
    }

    /// A seat for each worker.
    fn split_seats<R: Abort>(&self, rt: &R) -> Vec<Seat> {
        let mut seats = Vec::new(self.alloc);
        for _ in 0..self.workers {
            keep(rt, &mut seats, self.seat.split());
        }
        seats
    }

    fn run_one_round<R: Threads + Wait + Print + Abort + Sync, G: Gate + Sync>(
        &mut self,
        rt: &R,
        live: &Live,
        gate: &G,
        round: u64,
    ) {
        let lists = self.deal(rt, round);
        let seats = self.split_seats(rt);
        assert!(rt; lists.len() == seats.len());
        for worker in run(rt, self.alloc, live, seats, &lists, gate) {
            assert!(rt; worker.end == End::Whole);
            let caller = joined(rt, Receipts::new(self.alloc), worker);
            keep(rt, &mut self.callers, caller);
        }
    }

    pub(crate) fn run_rounds<R: Threads + Wait + Clock + Print + Abort + Sync>(
        &mut self,
        rt: &R,
        live: &Live,
        rounds: u64,
    ) {
        let watch = watched(rt, self.alloc, self.workers);
        for round in 0..rounds {
            self.run_one_round(rt, live, &watch, round);
        }
        self.longest = watch.longest();
    }
}

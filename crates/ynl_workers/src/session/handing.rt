//! Seats and receipts that are handed in at the end.

ghost use Rattle.std.specs.Prelude.{◌≡◌, ◌≢◌, ◌<◌, ◌⊎◌, [], ◌∷◌, ◌++◌, length, map, All, OnOk, IfOk, IfErr, vec_len};
ghost use Rattle.ynl_workers.specs.declared.working.End.TheVariants.{Whole, Halted};
ghost use Rattle.ynl_workers.specs.session.Faults.{ended};
ghost use Rattle.ynl_workers.specs.session.Handed.{AddsRounds, AreNotHalted, LeavesOut, NotesHalted, OneWasBehind};

use crate::session::dealing::deal;
use crate::session::sessions::SessionFault;
use crate::{End, Gate, Go, Sight, WorkerEnd, run_round};
use std::alloc::{AllocError, Global};
use std::sync::Wait;
use std::thread::Threads;
use ynl_live::{Live, Receipts, Seat};
use ynl_resource::Name;

/// How many nodes each worker goes over in a batch. As a worker makes them, its receipts take 1.3 KB each; taken in when the batch
/// has ended, some 100 bytes.
const BATCH: usize = 256;

/// Workers on a scheduler: so many, each on a seat that is split off this one.
#[derive(Clone, Copy)]
pub(crate) struct Crew<'a> {
    pub(crate) live: &'a Live,
    pub(crate) seat: &'a Seat,
    pub(crate) workers: usize,
}

/// The gate in a later batch of a round: the turns before it are counted.
#[derive(Clone, Copy)]
struct Onward<'a, G> {
    gate: &'a G,
    before: u64,
}

impl<G: Gate> Gate for Onward<'_, G> {
    ghost is_free = { λ onward. G.is_free onward.gate.now };

    fn before_plan(&self, worker: u64, turn: u64, sight: &Sight) {
        self.gate
            .before_plan(worker, self.before.saturating_add(turn), sight);
    }

    fn before_commit(&self, worker: u64, turn: u64) -> Go {
        self.gate
            .before_commit(worker, self.before.saturating_add(turn))
    }

    fn after_commit(&self, worker: u64, turn: u64) {
        self.gate
            .after_commit(worker, self.before.saturating_add(turn));
    }
}

/// The seats that are handed in, and the receipts of each.
#[derive(Drop)]
pub struct Handed {
    pub seats: Vec<Seat>,
    pub lists: Vec<Receipts>,
}

/// Seats for so many workers.
fn split_seats(alloc: Global, seat: &Seat, count: usize) -> Result<Vec<Seat>, AllocError>
    ensures { IfOk result (λ seats. vec_len seats ≡ count) }
{
    let mut seats = Vec::with_capacity(alloc, count)?;
    for _ in 0..count {
        seats.push(seat.split())?;
    }
    Ok(seats)
}

/// Workers that were halted get no more nodes in their round.
fn leave_out(lists: &mut Vec<Vec<Name>>, halted: &[bool])
    requires { length halted.now ≡ vec_len lists.old }
    ensures count { vec_len lists.new ≡ vec_len lists.old }
    ensures left { LeavesOut halted.now lists.old.items lists.new.items }
    ensures none { AreNotHalted halted.now → lists.new.items ≡ lists.old.items }
{
    for k in 0..lists.len() {
        if halted[k] {
            lists[k].clear();
        }
    }
}

/// Notes which of the workers were halted.
fn note_halted(ends: &[WorkerEnd], halted: &mut Vec<bool>)
    requires { length ends.now ≡ vec_len halted.old }
    ensures count { vec_len halted.new ≡ vec_len halted.old }
    ensures noted { NotesHalted ends.now halted.old.items halted.new.items }
    ensures none { All (λ worker. worker.end ≢ Halted) ends.now → halted.new.items ≡ halted.old.items }
{
    for k in 0..ends.len() {
        if ends[k].end == End::Halted {
            halted[k] = true;
        }
    }
}

/// Whether a worker went over its nodes or was halted, or else why a session is not closed.
fn has_ended(end: End) -> Result<(), SessionFault>
    ensures { result ≡ ended end }
{
    match end {
        End::Whole | End::Halted => Ok(()),
        End::NoMemory => Err(SessionFault::NoMemory),
        End::Behind(_) => Err(SessionFault::Unclosed),
    }
}

impl Handed {
    /// No seat.
    pub(crate) fn new(alloc: Global) -> Handed
        ensures { result.lists.items ≡ [] }
    {
        Handed {
            seats: Vec::new(alloc),
            lists: Vec::new(alloc),
        }
    }

    /// Takes in a worker's seat and its receipts.
    fn keep(&mut self, alloc: Global, end: WorkerEnd) -> Result<(), AllocError>
        ensures { OnOk result (self.new.lists.items ≡ self.old.lists.items ++ end.receipts.items ∷ []) }
    {
        let receipts = Receipts::of(alloc, &end.receipts)?;
        self.seats.push(end.seat)?;
        self.lists.push(receipts)?;
        Ok(())
    }

    /// Takes in what the workers of a batch hand back, if each went over its nodes or was halted.
    fn take(&mut self, alloc: Global, ends: Vec<WorkerEnd>) -> Result<(), SessionFault>
        ensures ended { OnOk result (All (λ worker. (worker.end ≡ Whole) ⊎ (worker.end ≡ Halted)) ends.items) }
        ensures lists { OnOk result (self.new.lists.items ≡ self.old.lists.items ++ map (λ worker. worker.receipts.items) ends.items) }
        ensures unclosed { IfErr result (λ fault. fault ≡ SessionFault.Unclosed → OneWasBehind ends.items) }
    {
        for end in ends {
            has_ended(end.end)?;
            self.keep(alloc, end)?;
        }
        Ok(())
    }

    /// Lets the crew go over these nodes, which are dealt out to it in turn.
    fn run_batch<T: Threads + Wait + Sync, G: Gate + Sync>(
        &mut self,
        rt: &T,
        alloc: Global,
        crew: &Crew<'_>,
        nodes: &[Name],
        gate: &G,
        halted: &mut Vec<bool>,
    ) -> Result<(), SessionFault>
        requires workers { 0 < crew.now.workers }
        requires count { vec_len halted.old ≡ crew.now.workers }
        requires free { G.is_free gate.now → AreNotHalted halted.old.items }
        ensures count { vec_len halted.new ≡ vec_len halted.old }
        ensures free { OnOk result (G.is_free gate.now → AreNotHalted halted.new.items) }
        ensures adds { OnOk result (AddsRounds (G.is_free gate.now) nodes.now 1 self.old.lists.items self.new.lists.items) }
    {
        let mut dealt = deal(alloc, nodes, crew.workers)?;
        leave_out(&mut dealt, halted);
        let seats = split_seats(alloc, crew.seat, dealt.len())?;
        let ends = run_round(rt, alloc, crew.live, seats, &dealt, gate)?;
        note_halted(&ends, halted);
        self.take(alloc, ends)
    }

    /// Runs a round: the crew goes over the nodes batch by batch.
    fn run_round<T: Threads + Wait + Sync, G: Gate + Sync>(
        &mut self,
        rt: &T,
        alloc: Global,
        crew: &Crew<'_>,
        nodes: &[Name],
        gate: &G,
    ) -> Result<(), SessionFault>
        requires { 0 < crew.now.workers }
        ensures { OnOk result (AddsRounds (G.is_free gate.now) nodes.now 1 self.old.lists.items self.new.lists.items) }
    {
        let mut halted = vec![in alloc; false; crew.workers]?;
        let mut before: u64 = 0;
        for batch in nodes.chunks(crew.workers.saturating_mul(BATCH)) {
            let onward = Onward { gate, before };
            self.run_batch(rt, alloc, crew, batch, &onward, &mut halted)?;
            before = before.saturating_add(BATCH as u64);
        }
        Ok(())
    }

    /// Runs so many rounds, one after another.
    pub(crate) fn run_rounds<T: Threads + Wait + Sync, G: Gate + Sync>(
        &mut self,
        rt: &T,
        alloc: Global,
        crew: &Crew<'_>,
        nodes: &[Name],
        rounds: u64,
        gate: &G,
    ) -> Result<(), SessionFault>
        requires { 0 < crew.now.workers }
        ensures { OnOk result (AddsRounds (G.is_free gate.now) nodes.now rounds self.old.lists.items self.new.lists.items) }
    {
        for _ in 0..rounds {
            self.run_round(rt, alloc, crew, nodes, gate)?;
        }
        Ok(())
    }
}

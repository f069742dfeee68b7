//! Rounds: a worker for each seat, all at once.

ghost use Rattle.std.specs.Prelude.{◌≡◌, ℕ, ◌*◌, ◌≤◌, ◌<◌, [], All, length, map, vec_len, vec_capacity, IfOk, IfErr, slice_index_or};
ghost use Rattle.ynl_workers.specs.Rounds.{IsReady, IsRound, IsWorkOf};

use crate::gates::Gate;
use crate::working::{End, WorkerEnd, work};
use std::alloc::{AllocError, Global};
use std::sync::Wait;
use std::thread;
use std::thread::Threads;
use ynl_live::{Live, Receipt, Seat};
use ynl_resource::Name;

/// Memory was refused before any worker started. The seats are as they were handed in.
#[derive(Drop)]
pub struct Unrun {
    pub seats: Vec<Seat>,
}

/// Runs a worker for each seat, the first over the nodes of the first list and so on, each in a thread of
/// its own; where no thread is to be had, workers run one after another on the caller's. Memory for all
/// receipts is taken before the first worker starts.
pub fn run_round<R: Threads + Wait + Sync, G: Gate + Sync>(
    rt: &R,
    alloc: Global,
    live: &Live,
    seats: Vec<Seat>,
    lists: &[Vec<Name>],
    gate: &G,
) -> Result<Vec<WorkerEnd>, Unrun>
    requires { length lists.now ≡ vec_len seats }
    ensures len { IfOk result (λ ends. vec_len ends ≡ vec_len seats) }
    ensures round { IfOk result (λ ends. IsRound (G.is_free gate.now) seats.items lists.now ends.items) }
    ensures unrun { IfErr result (λ unrun. unrun.seats ≡ seats) }
{
    let longest = longest_of(lists);
    let Ok((reserved, ends)) = reserve(alloc, seats.len(), longest) else {
        return Err(Unrun { seats });
    };
    let mut ends = ready(seats, reserved, ends, longest);
    run_all(rt, live, gate, lists, longest, ends.as_mut_slice());
    Ok(ends)
}

fn longest_of(lists: &[Vec<Name>]) -> usize
    ensures { All (λ list. length list.items ≤ result) lists.now }
{
    let mut longest: usize = 0;
    for list in lists {
        longest = longest.max(list.len());
    }
    longest
}

/// Memory for the receipts of each worker, two for each node, and for the workers.
fn reserve(
    alloc: Global,
    workers: usize,
    longest: usize,
) -> Result<(Vec<Vec<Receipt>>, Vec<WorkerEnd>), AllocError>
    ensures count { IfOk result (λ got. vec_len got.0 ≡ workers) }
    ensures receipts { IfOk result (λ got. All (λ list. (list.items ≡ []) × (2 * longest ≤ vec_capacity list)) got.0.items) }
    ensures ends { IfOk result (λ got. (got.1.items ≡ []) × (workers ≤ vec_capacity got.1)) }
{
    let most = longest.checked_mul(2).ok_or(AllocError)?;
    let mut lists = Vec::with_capacity(alloc, workers)?;
    for _ in 0..workers {
        lists.push(Vec::with_capacity(alloc, most)?)?;
    }
    Ok((lists, Vec::with_capacity(alloc, workers)?))
}

/// A worker for each seat, which has not begun.
fn ready(
    seats: Vec<Seat>,
    mut reserved: Vec<Vec<Receipt>>,
    mut ends: Vec<WorkerEnd>,
    longest: usize,
) -> Vec<WorkerEnd>
    requires count { vec_len reserved ≡ vec_len seats }
    requires receipts { All (λ list. (list.items ≡ []) × (2 * longest ≤ vec_capacity list)) reserved.items }
    requires ends { (ends.items ≡ []) × (vec_len seats ≤ vec_capacity ends) }
    ensures seats { map (λ worker. worker.seat) result.items ≡ seats.items }
    ensures ready { All (IsReady (2 * longest)) result.items }
{
    for seat in seats {
        let Some(receipts) = reserved.pop() else {
            unreachable!()
        };
        ends.push_reserved(WorkerEnd {
            seat,
            receipts,
            end: End::Whole,
        });
    }
    ends
}

/// Each worker in a thread of its own, where one is to be had.
fn run_all<R: Threads + Wait + Sync, G: Gate + Sync>(
    rt: &R,
    live: &Live,
    gate: &G,
    lists: &[Vec<Name>],
    longest: usize,
    ends: &mut [WorkerEnd],
)
    requires len { length lists.now ≡ length ends.old }
    requires longest { All (λ list. length list.items ≤ longest) lists.now }
    requires ready { All (IsReady (2 * longest)) ends.old }
    ensures { (k : ℕ) (d : _) (e : _) → k < length ends.old → IsWorkOf (G.is_free gate.now) (slice_index_or ends.old k d).seat (slice_index_or lists.now k e).items (slice_index_or ends.new k d) }
{
    let threads = ends.len().max(1);
    let each = |i: usize, end: &mut WorkerEnd|
        requires { (i < length lists.now) × All (λ list. length list.items ≤ longest) lists.now × IsReady (2 * longest) end.now }
        ensures { (d : _) → IsWorkOf (G.is_free gate.entry.now) end.entry.now.seat (slice_index_or lists.entry.now i d).items end.exit.now }
    { run_one(rt, live, gate, lists, longest, i, end) };
    thread::for_each_mut(rt, ends, threads, &each);
}

fn run_one<R: Wait, G: Gate>(
    rt: &R,
    live: &Live,
    gate: &G,
    lists: &[Vec<Name>],
    longest: usize,
    i: usize,
    end: &mut WorkerEnd,
)
    requires inside { i < length lists.now }
    requires longest { All (λ list. length list.items ≤ longest) lists.now }
    requires ready { IsReady (2 * longest) end.old }
    ensures { (d : _) → IsWorkOf (G.is_free gate.now) end.old.seat (slice_index_or lists.now i d).items end.new }
{
    let nodes = lists[i].as_slice();
    let WorkerEnd {
        seat,
        receipts,
        end: way,
    } = end;
    *way = work(rt, live, gate, i as u64, nodes, seat, receipts);
}

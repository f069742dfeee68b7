//! One worker: its turns, one on each node.

ghost use Rattle.std.specs.Prelude.{◌≡◌, ◌+◌, ◌*◌, ◌≤◌, ◌<◌, [], ◌∷◌, ◌++◌, length, vec_len, vec_capacity, IfOk, OnOk, OnErr};
ghost use Rattle.ynl_core.specs.Sightings.{reply_by};
ghost use Rattle.ynl_live.specs.declared.receipts.Receipt.{Receipt};
ghost use Rattle.ynl_workers.specs.Turns.{IsAsked, proposal_in};
ghost use Rattle.ynl_workers.specs.Works.{AreCallsOn, IsWork, Adds, end_of};

use crate::gates::{Gate, Go};
use std::sync::Wait;
use ynl_core::Sighted;
use ynl_live::{CallFault, Live, Receipt, Seat};
use ynl_model::{Event, Proposal, Reply};
use ynl_resource::Name;
use ynl_sights::plan;

/// How a worker came to its end.
#[derive(Clone, Copy, Debug, PartialEq, Eq)]
pub enum End {
    /// It went over all its nodes.
    Whole,
    /// The gate answered `Halt`.
    Halted,
    /// A call was refused memory.
    NoMemory,
    /// A call told that the journal has only this many entries: the seat is of another `Live`.
    Behind(u64),
}

/// What a worker hands back: its seat, the receipts of its calls in their order, and how it ended.
#[derive(Drop)]
pub struct WorkerEnd {
    pub seat: Seat,
    pub receipts: Vec<Receipt>,
    pub end: End,
}

/// A turn of a worker: which worker, which of its turns, and on which node.
#[derive(Clone, Copy)]
struct Turn {
    worker: u64,
    number: u64,
    node: Name,
}

/// A want of memory is told as such, and a seat that is told to be of another `Live` as that.
fn end_of(fault: CallFault) -> End
    ensures { result ≡ end_of fault }
{
    match fault {
        CallFault::NoMemory => End::NoMemory,
        CallFault::Behind(entered) => End::Behind(entered),
    }
}

fn proposal_of(reply: &Reply) -> Option<Proposal>
    ensures { result ≡ proposal_in reply.now }
{
    match reply {
        Reply::Proposed(found) => *found,
        _ => None,
    }
}

/// Goes over the nodes, and keeps all receipts.
pub(crate) fn work<R: Wait, G: Gate>(
    rt: &R,
    live: &Live,
    gate: &G,
    worker: u64,
    nodes: &[Name],
    seat: &mut Seat,
    receipts: &mut Vec<Receipt>,
) -> End
    requires empty { receipts.old.items ≡ [] }
    requires reserved { 2 * length nodes.now ≤ vec_capacity receipts.old }
    ensures calls { AreCallsOn seat.old seat.new receipts.new.items }
    ensures work { IsWork (G.is_free gate.now) nodes.now receipts.new.items result }
{
    for (number, node) in nodes.iter().enumerate() {
        let turn = Turn {
            worker,
            number: number as u64,
            node: *node,
        };
        match take_turn(rt, live, gate, turn, seat, receipts) {
            End::Whole => {}
            end => return end,
        }
    }
    End::Whole
}

/// Asks what would be placed on the node, and commits the proposal if there is one and the gate lets it.
fn take_turn<R: Wait, G: Gate>(
    rt: &R,
    live: &Live,
    gate: &G,
    turn: Turn,
    seat: &mut Seat,
    receipts: &mut Vec<Receipt>,
) -> End
    requires { vec_len receipts.old + 2 ≤ vec_capacity receipts.old }
    ensures capacity { vec_capacity receipts.new ≡ vec_capacity receipts.old }
    ensures adds { Adds (G.is_free gate.now) turn.node receipts.old.items receipts.new.items seat.old seat.new result }
{
    let proposal = match ask(rt, live, gate, &turn, seat, receipts) {
        Ok(Some(proposal)) => proposal,
        Ok(None) => return End::Whole,
        Err(fault) => return end_of(fault),
    };
    if gate.before_commit(turn.worker, turn.number) == Go::Halt {
        return End::Halted;
    }
    match commit(rt, live, proposal, seat, receipts) {
        Ok(()) => {
            gate.after_commit(turn.worker, turn.number);
            End::Whole
        }
        Err(fault) => end_of(fault),
    }
}

/// The reply to a propose, worked out from what was seen. It has no `Live`: others go on while the gate and the plan take their
/// time.
fn answer<G: Gate>(gate: &G, turn: &Turn, sighted: &Sighted) -> Reply
    ensures { result ≡ reply_by sighted.now }
{
    match sighted {
        Sighted::Refused(refusal) => Reply::Refused(*refusal),
        Sighted::Seen(sight) => {
            gate.before_plan(turn.worker, turn.number, sight);
            Reply::Proposed(plan(sight))
        }
    }
}

/// Asks what would be placed on the node, and keeps the receipt. The cluster is seen under the lock, and the choice is made
/// without it.
fn ask<R: Wait, G: Gate>(
    rt: &R,
    live: &Live,
    gate: &G,
    turn: &Turn,
    seat: &mut Seat,
    receipts: &mut Vec<Receipt>,
) -> Result<Option<Proposal>, CallFault>
    requires { vec_len receipts.old < vec_capacity receipts.old }
    ensures capacity { vec_capacity receipts.new ≡ vec_capacity receipts.old }
    ensures receipt { IfOk result (λ found. (asked : Receipt) × (receipts.new.items ≡ receipts.old.items ++ asked ∷ []) × IsAsked turn.now.node found asked × AreCallsOn seat.old seat.new (asked ∷ [])) }
    ensures err { OnErr result ((seat.new ≡ seat.old) × (receipts.new ≡ receipts.old)) }
{
    let node = turn.node;
    let (place, sighted) = live.sight(rt, seat, &node)?;
    let reply = answer(gate, turn, &sighted);
    let found = proposal_of(&reply);
    receipts.push_reserved(Receipt {
        place,
        event: Event::Propose { node },
        reply,
    });
    Ok(found)
}

/// Commits a proposal, and keeps the receipt.
fn commit<R: Wait>(
    rt: &R,
    live: &Live,
    proposal: Proposal,
    seat: &mut Seat,
    receipts: &mut Vec<Receipt>,
) -> Result<(), CallFault>
    requires { vec_len receipts.old < vec_capacity receipts.old }
    ensures capacity { vec_capacity receipts.new ≡ vec_capacity receipts.old }
    ensures receipt { OnOk result ((done : Receipt) × (receipts.new.items ≡ receipts.old.items ++ done ∷ []) × (done.event ≡ Event.Commit proposal) × AreCallsOn seat.old seat.new (done ∷ [])) }
    ensures err { OnErr result ((seat.new ≡ seat.old) × (receipts.new ≡ receipts.old)) }
{
    let receipt = live.call(rt, seat, Event::Commit { proposal })?;
    receipts.push_reserved(receipt);
    Ok(())
}

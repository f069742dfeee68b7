//! Sessions.

ghost use Rattle.std.specs.Prelude.{◌≡◌, ◌<◌, [], IfOk, map};
ghost use Rattle.std.specs.List.Sorted.{IsPermutation};
ghost use Rattle.ynl_laws.specs.Working.{Apart, places};
ghost use Rattle.ynl_workers.specs.session.Dealt.{AreInOrder};
ghost use Rattle.ynl_workers.specs.session.Faults.{fault_of_cause};
ghost use Rattle.ynl_workers.specs.session.Sessions.{nodes_after, IsSession};

use crate::session::handing::{Crew, Handed};
use crate::{Gate, Unrun};
use std::alloc::{AllocError, Global};
use std::sync::Wait;
use std::thread::Threads;
use thiserror::Error;
use ynl_core::NoMemory;
use ynl_journal::Start;
use ynl_live::{CallFault, Cause, Live, close_for_good};
use ynl_model::Node;
use ynl_packed::{Entries, Events};
use ynl_resource::Name;

/// Why a session has no closed journal.
#[derive(Clone, Copy, Debug, PartialEq, Eq, Error)]
pub enum SessionFault {
    /// Memory was refused.
    #[error("out of memory")]
    NoMemory,
    /// The journal could not be closed, or was not run to its end, and no memory was refused.
    #[error("not closed")]
    Unclosed,
}

impl From<AllocError> for SessionFault {
    ghost use Rattle.std.specs.Prelude.{◌≡◌};
    ghost use Rattle.ynl_workers.specs.declared.session.sessions.SessionFault.TheVariants.{NoMemory};

    ghost from_gives = { λ _ fault. fault ≡ NoMemory };

    fn from(_error: AllocError) -> SessionFault {
        SessionFault::NoMemory
    }
}

impl From<NoMemory> for SessionFault {
    ghost use Rattle.std.specs.Prelude.{◌≡◌};
    ghost use Rattle.ynl_workers.specs.declared.session.sessions.SessionFault.TheVariants.{NoMemory};

    ghost from_gives = { λ _ fault. fault ≡ NoMemory };

    fn from(_error: NoMemory) -> SessionFault {
        SessionFault::NoMemory
    }
}

impl From<Unrun> for SessionFault {
    ghost use Rattle.std.specs.Prelude.{◌≡◌};
    ghost use Rattle.ynl_workers.specs.declared.session.sessions.SessionFault.TheVariants.{NoMemory};

    ghost from_gives = { λ _ fault. fault ≡ NoMemory };

    fn from(_error: Unrun) -> SessionFault {
        SessionFault::NoMemory
    }
}

impl From<CallFault> for SessionFault {
    ghost use Rattle.std.specs.Prelude.{◌≡◌};
    ghost use Rattle.ynl_workers.specs.session.Faults.{fault_of_call};

    ghost from_gives = { λ call fault. fault ≡ fault_of_call call };

    fn from(error: CallFault) -> SessionFault {
        match error {
            CallFault::NoMemory => SessionFault::NoMemory,
            CallFault::Behind(_) => SessionFault::Unclosed,
        }
    }
}

/// A want of memory is told as such, and each other cause as receipts that do not fit.
fn fault_of(cause: Cause) -> SessionFault
    ensures { result ≡ fault_of_cause cause }
{
    match cause {
        Cause::NoMemory => SessionFault::NoMemory,
        _ => SessionFault::Unclosed,
    }
}

fn names_of(alloc: Global, nodes: &[Node]) -> Result<Vec<Name>, AllocError>
    ensures { IfOk result (λ names. names.items ≡ map (λ node. node.name) nodes.now) }
{
    nodes.iter().map(|node| node.name).collect(alloc)
}

/// The nodes of a start, by name in byte order.
fn nodes_in_order(alloc: Global, start: &Start) -> Result<Vec<Name>, SessionFault>
    ensures apart { IfOk result (λ _. Apart (places start.now.state)) }
    ensures all { IfOk result (λ nodes. IsPermutation (nodes_after start.now []) nodes.items) }
    ensures order { IfOk result (λ nodes. AreInOrder nodes.items) }
{
    let nodes = start.nodes(alloc)?;
    let mut names = names_of(alloc, &nodes)?;
    names.sort()?;
    Ok(names)
}

/// The closed journal of so many rounds of workers over the nodes of a live scheduler that begins with this start.
fn run_rounds<T: Threads + Wait + Sync, G: Gate + Sync>(
    rt: &T,
    alloc: Global,
    start: Start,
    workers: usize,
    rounds: u64,
    gate: &G,
) -> Result<Entries, SessionFault>
    requires { 0 < workers }
    ensures { IfOk result (λ entries. IsSession (G.is_free gate.now) start [] rounds entries) }
{
    let nodes = nodes_in_order(alloc, &start)?;
    let (live, seat) = Live::begin(alloc, start)?;
    let crew = Crew {
        live: &live,
        seat: &seat,
        workers,
    };
    let mut handed = Handed::new(alloc);
    handed.run_rounds(rt, alloc, &crew, &nodes, rounds, gate)?;
    let Handed { seats, lists } = handed;
    match close_for_good(alloc, live, &seats, &lists) {
        Ok(closed) => Ok(closed.entries),
        Err(cause) => Err(fault_of(cause)),
    }
}

/// Applies the events to a cluster like the one of this start, and puts it behind the lock of a live scheduler. Then runs so many
/// rounds of workers over the nodes that the events left, and answers the history of all. In each round the nodes, by name in byte
/// order, are dealt out to the workers in turn, in batches: the next one begins when all workers have ended with theirs.
///
/// The events are one caller's, and no other is there yet: a call of theirs would wait for nobody.
///
/// `Unclosed` comes where the journal of the rounds is not closed for another cause than want of memory, or where a call was told
/// that its seat is of another scheduler.
pub fn run_session<T: Threads + Wait + Sync, G: Gate + Sync>(
    rt: &T,
    alloc: Global,
    start: Start,
    events: &Events,
    workers: usize,
    rounds: u64,
    gate: &G,
) -> Result<Entries, SessionFault>
    requires { 0 < workers }
    ensures { IfOk result (λ entries. IsSession (G.is_free gate.now) start events.now rounds entries) }
{
    let (start, mut history) = start.after(alloc, events)?;
    let later = run_rounds(rt, alloc, start, workers, rounds, gate)?;
    history.append(&later)?;
    Ok(history)
}

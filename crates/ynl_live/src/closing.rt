//! The end of a live scheduler: the closed journal.

ghost use Rattle.std.specs.Prelude.{◌≡◌, [], List, All, length, IfOk, OnOk, IfErr};
ghost use Rattle.ynl_journal.specs.Journal.{IsHistoryFrom, events_in, replayed_from};
ghost use Rattle.ynl_model.specs.declared.events.Event.{Event};
ghost use Rattle.ynl_core.specs.World.{World};
ghost use Rattle.ynl_live.specs.Alone.{ShowTenantsAloneFrom};
ghost use Rattle.ynl_live.specs.Causes.{IsCause, IsCauseFor};
ghost use Rattle.ynl_live.specs.Closing.{IsClosing};
ghost use Rattle.ynl_live.specs.Marks.{IsMarked};
ghost use Rattle.ynl_live.specs.Receipts.{all_receipts, EachOnce, ListFits, calls_on, IsOneForEach};

use crate::calling::Live;
use crate::matching::{are_calls, is_one_for_each, mark_lists};
use crate::receipts::Receipts;
use crate::seats::Seat;
use std::alloc::Global;
use std::sync::Arc;
use thiserror::Error;
use ynl_core::{Core, NoMemory};
use ynl_journal::{Book, Start, replay_history};
use ynl_packed::{Entries, Events};

/// Why a journal is not closed. They are looked for in this order.
#[derive(Clone, Copy, Debug, PartialEq, Eq, Error)]
pub enum Cause {
    /// The seats' calls are not together as many as the journal's entries.
    #[error("not all seats are there")]
    SeatsMissing,
    /// There is not one list of receipts for each seat, as long as the seat's calls.
    #[error("not all receipts are there")]
    ReceiptsMissing,
    /// The first receipt, list by list, that does not fit has this place: the journal has no such place,
    /// a receipt before it has that place or, in its list, a later one, or another event or another reply
    /// stands there.
    #[error("the receipt of place {0} does not fit the journal")]
    Mismatch(u64),
    /// Memory was refused.
    #[error("out of memory")]
    NoMemory,
}

/// A whole journal, each event with its reply, and the cluster that it leads to.
#[derive(Drop)]
pub struct Closed {
    pub core: Core,
    pub entries: Entries,
}

impl Closed {
    /// The cluster that the journal leads to, which can be saved, or go on.
    pub fn into_core(self) -> Core
        ensures { result ≡ self.core }
    {
        let Closed { core, entries: _ } = self;
        core
    }
}

/// A scheduler that goes on, with the seats that were handed in, and why its journal is not closed.
#[derive(Drop)]
pub struct Unclosed {
    pub cause: Cause,
    pub live: Live,
    pub seats: Vec<Seat>,
}

/// Ends a live scheduler, and answers its journal: all its seats are handed in, and for each seat, in
/// the order of the seats, the list of all receipts of its calls. The events are replayed by a second cluster
/// like the one that the journal began with, whose replies are the journal's, and which is then handed out. At
/// a cause the journal comes back as it was.
///
/// It is one call of `close_book` on the book that is taken out of its lock, and put back at a cause: the
/// contract of that ties the entries and the cause to the book, which no clause of this one can name.
pub fn close(
    alloc: Global,
    live: Live,
    seats: Vec<Seat>,
    lists: &[Receipts],
) -> Result<Closed, Unclosed>
    ensures core { IfOk result (λ closed. closed.core ≡ replayed_from live.config live.state closed.entries) }
    ensures history { IfOk result (λ closed. IsHistoryFrom live.config live.state closed.entries) }
    ensures alone { IfOk result (λ closed. ShowTenantsAloneFrom live closed.entries) }
    ensures calls { IfOk result (λ closed. length closed.entries ≡ calls_on seats.items) }
    ensures lists { OnOk result (IsOneForEach seats.items lists.now) }
    ensures receipts { IfOk result (λ closed. All (λ list. ListFits closed.entries list) lists.now) }
    ensures once { IfOk result (λ closed. EachOnce (length closed.entries) (all_receipts lists.now)) }
    ensures live { IfErr result (λ unclosed. unclosed.live ≡ live) }
    ensures seats { IfErr result (λ unclosed. unclosed.seats ≡ seats) }
    ensures cause { IfErr result (λ unclosed. IsCauseFor live seats.items lists.now unclosed.cause) }
{
    let (start, book) = live.into_parts();
    match close_book(alloc, &start, book, seats.as_slice(), lists) {
        Ok(closed) => Ok(closed),
        Err((cause, book)) => Err(Unclosed {
            cause,
            live: Live::of(start, book),
            seats,
        }),
    }
}

/// Ends a live scheduler as `close` does, and for good: the events are replayed by the cluster that the journal began with, so
/// there is no second one beside it, and the scheduler's own goes before. At a cause nothing comes back.
///
/// It is one call of `close_start`, whose contract ties the entries and the cause to the book, as that of `close_book` does.
pub fn close_for_good(
    alloc: Global,
    live: Live,
    seats: &[Seat],
    lists: &[Receipts],
) -> Result<Closed, Cause>
    ensures core { IfOk result (λ closed. closed.core ≡ replayed_from live.config live.state closed.entries) }
    ensures history { IfOk result (λ closed. IsHistoryFrom live.config live.state closed.entries) }
    ensures alone { IfOk result (λ closed. ShowTenantsAloneFrom live closed.entries) }
    ensures calls { IfOk result (λ closed. length closed.entries ≡ calls_on seats.now) }
    ensures lists { OnOk result (IsOneForEach seats.now lists.now) }
    ensures receipts { IfOk result (λ closed. All (λ list. ListFits closed.entries list) lists.now) }
    ensures once { IfOk result (λ closed. EachOnce (length closed.entries) (all_receipts lists.now)) }
    ensures cause { IfErr result (IsCauseFor live seats.now lists.now) }
{
    let (start, book) = live.into_parts();
    close_start(alloc, start, book, seats, lists)
}

/// The closed history of a book's events, where the receipts of all seats fit it, by the cluster of the start itself.
fn close_start(
    alloc: Global,
    start: Arc<Start>,
    book: Book,
    seats: &[Seat],
    lists: &[Receipts],
) -> Result<Closed, Cause>
    ensures closed { IfOk result (IsClosing start.value (events_in book.entries) seats.now lists.now) }
    ensures cause { IfErr result (IsCause start.value (events_in book.entries) seats.now lists.now) }
{
    let events = book.into_events();
    check_handed(events.len() as u64, seats, lists)?;
    let Ok(core) = Start::into_cluster(start, alloc) else {
        return Err(Cause::NoMemory);
    };
    close_events(alloc, core, &events, seats, lists)
}

/// The same by a second cluster like that of the start; at a cause the book comes back as it is.
fn close_book(
    alloc: Global,
    start: &Start,
    book: Book,
    seats: &[Seat],
    lists: &[Receipts],
) -> Result<Closed, (Cause, Book)>
    ensures closed { IfOk result (IsClosing start.now (events_in book.entries) seats.now lists.now) }
    ensures book { IfErr result (λ back. back.1 ≡ book) }
    ensures cause { IfErr result (λ back. IsCause start.now (events_in book.entries) seats.now lists.now back.0) }
{
    match close_copy(alloc, start, book.events(), seats, lists) {
        Ok(closed) => Ok(closed),
        Err(cause) => Err((cause, book)),
    }
}

/// The same of its events alone.
fn close_copy(
    alloc: Global,
    start: &Start,
    events: &Events,
    seats: &[Seat],
    lists: &[Receipts],
) -> Result<Closed, Cause>
    ensures closed { IfOk result (IsClosing start.now events.now seats.now lists.now) }
    ensures cause { IfErr result (IsCause start.now events.now seats.now lists.now) }
{
    check_handed(events.len() as u64, seats, lists)?;
    let Ok(core) = start.cluster(alloc) else {
        return Err(Cause::NoMemory);
    };
    close_events(alloc, core, events, seats, lists)
}

/// Whether the seats that were handed in have so many calls, and there is a list of receipts for each.
fn check_handed(calls: u64, seats: &[Seat], lists: &[Receipts]) -> Result<(), Cause>
    ensures handed { OnOk result ((calls_on seats.now ≡ calls) × IsOneForEach seats.now lists.now) }
    ensures cause { (w : World) (events : List Event) → length events ≡ calls → IfErr result (IsCause w events seats.now lists.now) }
{
    if !are_calls(seats, calls) {
        return Err(Cause::SeatsMissing);
    }
    if !is_one_for_each(seats, lists) {
        return Err(Cause::ReceiptsMissing);
    }
    Ok(())
}

/// The closed history of these events, from this cluster on, where the receipts of all seats fit it.
fn close_events(
    alloc: Global,
    core: Core,
    events: &Events,
    seats: &[Seat],
    lists: &[Receipts],
) -> Result<Closed, Cause>
    requires calls { calls_on seats.now ≡ length events.now }
    requires lists { IsOneForEach seats.now lists.now }
    ensures closed { IfOk result (IsClosing core events.now seats.now lists.now) }
    ensures cause { IfErr result (IsCause core events.now seats.now lists.now) }
{
    let Ok(closed) = replayed(alloc, core, events) else {
        return Err(Cause::NoMemory);
    };
    let Ok(mut marks) = unmarked(alloc, closed.entries.len()) else {
        return Err(Cause::NoMemory);
    };
    match mark_lists(&closed.entries, marks.as_mut_slice(), lists) {
        Ok(()) => Ok(closed),
        Err(place) => Err(Cause::Mismatch(place)),
    }
}

/// The closed history of events, and the cluster that it leads to.
fn replayed(alloc: Global, core: Core, events: &Events) -> Result<Closed, NoMemory>
    ensures events { IfOk result (λ closed. events_in closed.entries ≡ events.now) }
    ensures core { IfOk result (λ closed. closed.core ≡ replayed_from core.config core.state closed.entries) }
    ensures history { IfOk result (λ closed. IsHistoryFrom core.config core.state closed.entries) }
    ensures len { IfOk result (λ closed. length closed.entries ≡ length events.now) }
{
    let mut core = core;
    let entries = replay_history(alloc, &mut core, events)?;
    Ok(Closed { core, entries })
}

/// As many places, none of which is marked.
fn unmarked(alloc: Global, len: usize) -> Result<Vec<bool>, NoMemory>
    ensures len { IfOk result (λ marks. length marks.items ≡ len) }
    ensures none { IfOk result (λ marks. IsMarked marks.items []) }
{
    Ok(vec![in alloc; false; len]?)
}

//! Calls: a book behind one lock.

ghost use Rattle.std.specs.Prelude.{◌≡◌, ◌≤◌, ◌<◌, ◌+◌, ◌^◌, [], ◌∷◌, ◌++◌, length, IfOk, IfErr, IsTrue, OnErr, Some};
ghost use Rattle.ynl_model.specs.Accepted.{is_accepted};
ghost use Rattle.ynl_model.specs.Events.{after, step};
ghost use Rattle.ynl_model.specs.declared.events.Event.TheVariants.{Propose};
ghost use Rattle.ynl_core.specs.Sightings.{IsSighting, reply_by, reply_before};
ghost use Rattle.ynl_core.specs.World.{opened};
ghost use Rattle.ynl_journal.specs.Journal.{entry, events_in, replayed_from};
ghost use Rattle.ynl_live.specs.Sightings.{IsOfNode};
ghost use Rattle.ynl_live.specs.Seats.{passed};
ghost use Rattle.ynl_live.specs.Faults.{IsFaultAt, IsFaultBehind};

use crate::receipts::Receipt;
use crate::seats::Seat;
use std::alloc::Global;
use std::marker::Model;
use std::sync::{Arc, Mutex, Wait};
use thiserror::Error;
use ynl_core::{Core, NoMemory, Sighted};
use ynl_journal::{Book, Start};
use ynl_model::{Event, Reply};
use ynl_queues::Config;
use ynl_resource::Name;

/// Why a call was not answered. The seat is then as before, and so is the journal.
#[derive(Clone, Copy, Debug, PartialEq, Eq, Error)]
pub enum CallFault {
    /// The journal has this many entries, fewer than the seat's front: the seat is of another `Live`.
    #[error("a seat of another scheduler: the journal has only {0} entries")]
    Behind(u64),
    /// Memory was refused.
    #[error("out of memory")]
    NoMemory,
}

/// A cluster that many callers use at once: its book behind one lock. A contract sees the cluster that the
/// journal began with alone, since what stands behind the lock can change at any time.
pub struct Live {
    start: Arc<Start>,
    book: Mutex<Book>,
}

// By hand, so that crates above call it: one that is derived is proved anew in each of them, with all that it holds.
impl Drop for Live {
    fn drop(self) {
        let Live { start: _, book: _ } = self;
    }
}

impl Model for Live {
    ghost use Rattle.ynl_core.specs.World.{World};

    ghost Value = { World };

    ghost view = { λ live. live.start.value };
}

impl Live {
    /// A cluster without nodes whose journal has no entry, and the seat of its first caller. Other seats
    /// are split off that one.
    pub fn open(alloc: Global, config: Config) -> Result<(Live, Seat), NoMemory>
        ensures { IfOk result (λ made. (made.0 ≡ opened config) × (made.1 ≡ record { calls = 0; front = 0 })) }
    {
        Live::begin(alloc, Start::opened(alloc, config))
    }

    /// A cluster that goes on from where this one stands, with a journal that has no entry, and the seat of its
    /// first caller. As for `Start::resumed`, its configuration is accepted.
    pub fn resume(alloc: Global, core: Core) -> Result<(Live, Seat), NoMemory>
        requires { IsTrue (is_accepted core.config) }
        ensures { IfOk result (λ made. (made.0 ≡ core) × (made.1 ≡ record { calls = 0; front = 0 })) }
    {
        Live::begin(alloc, Start::resumed(core))
    }

    /// A cluster like the one of this start whose journal has no entry, and the seat of its first caller.
    pub fn begin(alloc: Global, start: Start) -> Result<(Live, Seat), NoMemory>
        ensures { IfOk result (λ made. (made.0 ≡ start) × (made.1 ≡ record { calls = 0; front = 0 })) }
    {
        let start = Arc::new(alloc, start)?;
        let book = Book::begin(alloc, Arc::try_clone(&start)?)?;
        Ok((Live::of(start, book), Seat::first()))
    }

    /// The scheduler of a book.
    pub(crate) fn of(start: Arc<Start>, book: Book) -> Live
        ensures { result ≡ start.value }
    {
        Live {
            start,
            book: Mutex::new(book),
        }
    }

    /// The start, and the book as it stands when nobody calls any more.
    pub(crate) fn into_parts(self) -> (Arc<Start>, Book)
        ensures { result.0.value ≡ self }
    {
        let Live { start, book } = self;
        (start, book.into_inner())
    }

    /// Waits for its turn, has the event entered, and gives the receipt. It is one call of `enter` while it
    /// has the lock: what is entered, and with which reply, is in the contract of that. `Behind` tells that
    /// the journal has fewer entries than the seat's front, which no seat of this `Live` has; that no clause
    /// says, since none can name the book.
    pub fn call<R: Wait>(&self, rt: &R, seat: &mut Seat, event: Event) -> Result<Receipt, CallFault>
        ensures event { IfOk result (λ receipt. receipt.event ≡ event) }
        ensures later { IfOk result (λ receipt. seat.old.front ≤ receipt.place) }
        ensures seat { IfOk result (λ receipt. seat.new ≡ passed seat.old receipt.place) }
        ensures fault { IfErr result (IsFaultAt seat.old.front) }
        ensures err { OnErr result (seat.new ≡ seat.old) }
    {
        let (place, reply) = self.reply(rt, seat, &event)?;
        Ok(Receipt {
            place,
            event,
            reply,
        })
    }

    /// The same as `call`, of an event that is lent: what a receipt would tell besides it.
    pub fn reply<R: Wait>(
        &self,
        rt: &R,
        seat: &mut Seat,
        event: &Event,
    ) -> Result<(u64, Reply), CallFault>
        ensures later { IfOk result (λ told. seat.old.front ≤ told.0) }
        ensures seat { IfOk result (λ told. seat.new ≡ passed seat.old told.0) }
        ensures fault { IfErr result (IsFaultAt seat.old.front) }
        ensures err { OnErr result (seat.new ≡ seat.old) }
    {
        enter(&mut self.book.lock(rt), seat, event)
    }

    /// Waits for its turn, has a propose on the node entered, and gives its place and a copy of what the choice there reads, or
    /// the reason for which it is refused. The caller works out the reply without the lock, by `ynl_sights::plan`, and makes the
    /// receipt. It is one call of `see` while it has the lock; `Behind` as in `call`.
    pub fn sight<R: Wait>(
        &self,
        rt: &R,
        seat: &mut Seat,
        node: &Name,
    ) -> Result<(u64, Sighted), CallFault>
        ensures node { IfOk result (λ seen. IsOfNode node.now seen.1) }
        ensures later { IfOk result (λ seen. seat.old.front ≤ seen.0) }
        ensures seat { IfOk result (λ seen. seat.new ≡ passed seat.old seen.0) }
        ensures fault { IfErr result (IsFaultAt seat.old.front) }
        ensures err { OnErr result (seat.new ≡ seat.old) }
    {
        see(&mut self.book.lock(rt), seat, node)
    }
}

/// The place of the next entry. A seat whose front is past it is of another `Live`.
fn next_place(book: &Book, seat: &Seat) -> Result<u64, CallFault>
    ensures place { IfOk result (λ place. place ≡ length book.now.entries) }
    ensures later { IfOk result (λ place. seat.now.front ≤ place) }
    ensures counted { IfOk result (λ place. place + 1 < 2 ^ 64) }
    ensures fault { IfErr result (IsFaultBehind (length book.now.entries) seat.now.front) }
{
    let entered = book.len() as u64;
    if entered < seat.front() {
        return Err(CallFault::Behind(entered));
    }
    Ok(entered)
}

/// What a call does while it has the lock.
fn enter(book: &mut Book, seat: &mut Seat, event: &Event) -> Result<(u64, Reply), CallFault>
    ensures place { IfOk result (λ told. told.0 ≡ length book.old.entries) }
    ensures reply { IfOk result (λ told. told.1 ≡ (step book.old.config (after book.old.config book.old.begun (events_in book.old.entries)) event.now).reply) }
    ensures entry { IfOk result (λ told. book.new ≡ record book.old { entries = book.old.entries ++ entry event.now (Some told.1) ∷ [] }) }
    ensures later { IfOk result (λ told. seat.old.front ≤ told.0) }
    ensures seat { IfOk result (λ told. seat.new ≡ passed seat.old told.0) }
    ensures fault { IfErr result (IsFaultBehind (length book.old.entries) seat.old.front) }
    ensures err { OnErr result ((seat.new ≡ seat.old) × (book.new ≡ book.old)) }
{
    let place = next_place(book, seat)?;
    let Ok((_, reply)) = book.enter(event) else {
        return Err(CallFault::NoMemory);
    };
    seat.pass(place);
    Ok((place, reply))
}

/// What a sight does while it has the lock.
fn see(book: &mut Book, seat: &mut Seat, node: &Name) -> Result<(u64, Sighted), CallFault>
    ensures place { IfOk result (λ seen. seen.0 ≡ length book.old.entries) }
    ensures node { IfOk result (λ seen. IsOfNode node.now seen.1) }
    ensures sighting { IfOk result (λ seen. IsSighting (replayed_from book.old.config book.old.begun book.old.entries) node.now seen.1) }
    ensures reply { IfOk result (λ seen. reply_by seen.1 ≡ (step book.old.config (after book.old.config book.old.begun (events_in book.old.entries)) (Propose node.now)).reply) }
    ensures entry { IfOk result (λ seen. book.new ≡ record book.old { entries = book.old.entries ++ entry (Propose node.now) (reply_before seen.1) ∷ [] }) }
    ensures later { IfOk result (λ seen. seat.old.front ≤ seen.0) }
    ensures seat { IfOk result (λ seen. seat.new ≡ passed seat.old seen.0) }
    ensures fault { IfErr result (IsFaultBehind (length book.old.entries) seat.old.front) }
    ensures err { OnErr result ((seat.new ≡ seat.old) × (book.new ≡ book.old)) }
{
    let place = next_place(book, seat)?;
    let Ok((_, sighted)) = book.enter_propose(node) else {
        return Err(CallFault::NoMemory);
    };
    seat.pass(place);
    Ok((place, sighted))
}

//! Lines of tickets that have memory, for more than one.

ghost use Rattle.std.specs.Prelude.{◌≡◌, ◌<◌, ◌++◌, ◌∷◌, [], ◌≤◌, ◌≢◌, length, slice_get, slice_set, slice_index, slice_index_or, take, All, IfOk, IfSome, IfNone, OnOk, IsTrue};
ghost use Rattle.ynl_lanes.specs.firsts.Firsts.{IsFilledUp, IsFirst, NonePasses};
ghost use Rattle.ynl_lanes.specs.lane.Lines.{values_of, moved, HasRoom, IsLine};

use crate::firsts::{Firsts, Least, Test};
use crate::lane::kinds::{Both, Kind};
use std::alloc::{AllocError, Global};
use std::marker::Model;

/// Tickets in slots 0, 1, .., and at each slot a value for masters and one for asks.
#[derive(Drop)]
pub(crate) struct Long<T: Least> {
    tickets: Vec<u32>,
    masters: Firsts<T>,
    asks: Firsts<T>,
}

impl<T: Least> Model for Long<T> {
    ghost use Rattle.std.specs.Prelude.{vec_capacity};
    ghost use Rattle.ynl_lanes.specs.lane.Lined.{Lined};

    ghost Value = { Lined T };

    ghost view = { λ a. record { tickets = a.tickets.items; masters = a.masters; asks = a.asks; room = vec_capacity a.tickets } };
}

/// Two places, with a value in the first of them. It fails if memory is refused.
fn two_places<T: Least>(alloc: Global, value: T) -> Result<Firsts<T>, AllocError>
    ensures values { IfOk result (λ places. IsFilledUp T.none (value ∷ []) places) }
    ensures count { IfOk result (λ places. 2 ≤ length places) }
{
    let mut places = Firsts::new(alloc);
    places.reserve(2)?;
    places.set(0, value);
    Ok(places)
}

/// The value in a place goes to one that is not behind it, and leaves none there. Most lines have no gaps, and their
/// values stay.
#[tactic(auto, using(crate::proofs::lane::Packing::moved_same))]
fn move_value<T: Least>(values: &mut Firsts<T>, from: usize, to: usize)
    requires to { to ≤ from }
    requires from { from < length values.old }
    ensures { values.new ≡ moved T.none from to values.old }
{
    if from == to {
        return;
    }
    let value = values.get(from);
    values.set(from, T::none());
    values.set(to, value);
}

impl<T: Least> Long<T> {
    /// One ticket, with what waits at its slot, and room for another. It fails if memory is refused.
    pub(crate) fn of(alloc: Global, ticket: u32, values: &Both<T>) -> Result<Long<T>, AllocError>
        ensures tickets { IfOk result (λ long. long.tickets ≡ ticket ∷ []) }
        ensures masters { IfOk result (λ long. IsFilledUp T.none (values.now.master ∷ []) long.masters) }
        ensures asks { IfOk result (λ long. IsFilledUp T.none (values.now.ask ∷ []) long.asks) }
        ensures room { IfOk result HasRoom }
    {
        let mut tickets = Vec::with_capacity(alloc, 2)?;
        tickets.push_reserved(ticket);
        Ok(Long {
            tickets,
            masters: two_places(alloc, values.master)?,
            asks: two_places(alloc, values.ask)?,
        })
    }

    /// How many slots there are.
    pub(crate) fn len(&self) -> usize
        ensures { result ≡ length self.now.tickets }
    {
        self.tickets.len()
    }

    /// The ticket in a slot, if there is such a slot.
    pub(crate) fn ticket(&self, slot: usize) -> Option<u32>
        ensures { result ≡ slice_get self.now.tickets slot }
    {
        match self.tickets.get(slot) {
            Some(ticket) => Some(*ticket),
            None => None,
        }
    }

    /// Whether one more ticket takes no memory.
    pub(crate) fn has_room(&self) -> bool
        ensures { IsTrue result → HasRoom self.now }
    {
        let count = self.tickets.len();
        count < self.tickets.capacity()
            && count < self.masters.room()
            && count < self.asks.room()
            && count < u32::MAX as usize
    }

    /// Makes room for twice as many tickets as there are, or for one. It fails if memory is refused, and at 2^32 - 1
    /// tickets.
    pub(crate) fn reserve(&mut self) -> Result<(), AllocError>
        ensures tickets { self.new.tickets ≡ self.old.tickets }
        ensures masters { IsFilledUp T.none self.old.masters self.new.masters }
        ensures asks { IsFilledUp T.none self.old.asks self.new.asks }
        ensures room { OnOk result (HasRoom self.new) }
    {
        let count = self.tickets.len();
        if count >= u32::MAX as usize {
            return Err(AllocError);
        }
        let places = (2 * count).max(1);
        self.tickets.reserve(places - count)?;
        self.masters.reserve(places)?;
        self.asks.reserve(places)
    }

    /// A ticket in a new slot, where nothing waits.
    pub(crate) fn push(&mut self, ticket: u32)
        requires { HasRoom self.old }
        ensures tickets { self.new.tickets ≡ self.old.tickets ++ ticket ∷ [] }
        ensures masters { self.new.masters ≡ slice_set self.old.masters (length self.old.tickets) T.none }
        ensures asks { self.new.asks ≡ slice_set self.old.asks (length self.old.tickets) T.none }
    {
        let slot = self.tickets.len();
        self.tickets.push_reserved(ticket);
        self.masters.set(slot, T::none());
        self.asks.set(slot, T::none());
    }

    /// Keeps so many slots, and takes the tickets from the others.
    pub(crate) fn truncate(&mut self, count: usize)
        ensures tickets { self.new.tickets ≡ take count self.old.tickets }
        ensures masters { self.new.masters ≡ self.old.masters }
        ensures asks { self.new.asks ≡ self.old.asks }
    {
        self.tickets.truncate(count);
    }

    /// Puts a value of a kind at a slot.
    pub(crate) fn set(&mut self, kind: Kind, slot: usize, value: T)
        requires { slot < length (values_of kind self.old) }
        ensures tickets { self.new.tickets ≡ self.old.tickets }
        ensures value { values_of kind self.new ≡ slice_set (values_of kind self.old) slot value }
        ensures other { (k : _) → k ≢ kind → values_of k self.new ≡ values_of k self.old }
    {
        match kind {
            Kind::Master => self.masters.set(slot, value),
            Kind::Ask => self.asks.set(slot, value),
        }
    }

    /// The values at a slot.
    pub(crate) fn at(&self, slot: usize) -> Both<T>
        ensures master { result.master ≡ slice_index_or self.now.masters slot T.none }
        ensures ask { result.ask ≡ slice_index_or self.now.asks slot T.none }
    {
        Both {
            master: self.masters.get(slot),
            ask: self.asks.get(slot),
        }
    }

    /// Puts a value of each kind at a slot.
    pub(crate) fn set_both(&mut self, slot: usize, values: &Both<T>)
        requires master { slot < length self.old.masters }
        requires ask { slot < length self.old.asks }
        ensures tickets { self.new.tickets ≡ self.old.tickets }
        ensures masters { self.new.masters ≡ slice_set self.old.masters slot values.now.master }
        ensures asks { self.new.asks ≡ slice_set self.old.asks slot values.now.ask }
    {
        self.masters.set(slot, values.master);
        self.asks.set(slot, values.ask);
    }

    /// A value at or below those of a kind at all slots.
    pub(crate) fn root(&self, kind: Kind) -> T
        ensures { All (T.below result) (values_of kind self.now) }
    {
        match kind {
            Kind::Master => self.masters.root(),
            Kind::Ask => self.asks.root(),
        }
    }

    /// The first slot, not before `from`, whose value of a kind passes the test.
    // Called for each user and each request that a search passes.
    #[inline]
    pub(crate) fn next<P: Test<T>>(&self, kind: Kind, from: usize, test: &P) -> Option<usize>
        ensures none { IfNone result (NonePasses (P.passes test.now) (values_of kind self.now) from) }
        ensures first { IfSome result (IsFirst (P.passes test.now) (values_of kind self.now) from) }
    {
        match kind {
            Kind::Master => self.masters.next(from, test),
            Kind::Ask => self.asks.next(from, test),
        }
    }

    /// The ticket in a slot goes to one that is not behind it, with the values.
    pub(crate) fn move_up(&mut self, from: usize, to: usize)
        requires to { to ≤ from }
        requires from { from < length self.old.tickets }
        requires line { IsLine self.old }
        ensures tickets { self.new.tickets ≡ slice_set self.old.tickets to (slice_index self.old.tickets from) }
        ensures masters { self.new.masters ≡ moved T.none from to self.old.masters }
        ensures asks { self.new.asks ≡ moved T.none from to self.old.asks }
    {
        let ticket = self.tickets[from];
        self.tickets[to] = ticket;
        move_value(&mut self.masters, from, to);
        move_value(&mut self.asks, from, to);
    }
}

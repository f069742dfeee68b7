//! Lines of tickets, with a value of each kind at each slot: the first slot takes no memory.

ghost use Rattle.std.specs.Prelude.{◌≡◌, ◌<◌, ◌++◌, ◌∷◌, [], ◌≤◌, ◌≢◌, length, slice_get, slice_set, slice_index, slice_index_or, take, All, IfSome, IfNone, OnOk, IsTrue};
ghost use Rattle.ynl_lanes.specs.firsts.Firsts.{IsFilledUp, IsFirst, NonePasses};
ghost use Rattle.ynl_lanes.specs.lane.Lines.{values_of, moved, HasRoom, IsLine};

use crate::firsts::{Least, Test};
use crate::lane::kinds::{Both, Kind};
use crate::lane::long::Long;
use std::alloc::{AllocError, Global};
use std::marker::Model;

/// Tickets in slots 0, 1, .., and at each slot a value for masters and one for asks. A slot whose seat went
/// keeps the old ticket.
///
/// Most users of most lanes have one seat, so the first slot is here, and a line takes memory only for a second one.
#[derive(Drop)]
pub(crate) struct Line<T: Least> {
    /// The ticket in the only slot, if there is one.
    only: Option<u32>,
    /// What waits at the only slot.
    values: Both<T>,
    /// The slots, once there was a second one. What stands above is of no meaning then.
    long: Option<Box<Long<T>>>,
}

impl<T: Least> Model for Line<T> {
    ghost use Rattle.std.specs.Prelude.{option_map};
    ghost use Rattle.ynl_lanes.specs.lane.Lined.{Lined, lined};

    ghost Value = { Lined T };

    ghost view = { λ a. lined a.only a.values (option_map (λ b. b.value) a.long) };
}

impl<T: Least> Line<T> {
    /// No tickets yet, and room for one.
    pub(crate) fn new() -> Line<T>
        ensures tickets { result.tickets ≡ [] }
        ensures line { IsLine result }
        ensures room { HasRoom result }
    {
        Line {
            only: None,
            values: Both {
                master: T::none(),
                ask: T::none(),
            },
            long: None,
        }
    }

    /// How many slots there are.
    pub(crate) fn len(&self) -> usize
        ensures { result ≡ length self.now.tickets }
    {
        match (&self.long, self.only) {
            (Some(long), _) => long.len(),
            (None, Some(_)) => 1,
            (None, None) => 0,
        }
    }

    /// The ticket in a slot, if there is such a slot.
    pub(crate) fn ticket(&self, slot: usize) -> Option<u32>
        ensures { result ≡ slice_get self.now.tickets slot }
    {
        match &self.long {
            Some(long) => long.ticket(slot),
            None => if slot == 0 { self.only } else { None },
        }
    }

    /// Whether one more ticket takes no memory.
    pub(crate) fn has_room(&self) -> bool
        ensures { IsTrue result → HasRoom self.now }
    {
        match &self.long {
            Some(long) => long.has_room(),
            None => self.only.is_none(),
        }
    }

    /// Makes room for twice as many tickets as there are, or for one. It fails if memory is refused, and at 2^32 - 1
    /// tickets.
    // Done seldom, as `pack` is.
    #[inline(never)]
    pub(crate) fn reserve(&mut self, alloc: Global) -> Result<(), AllocError>
        ensures tickets { self.new.tickets ≡ self.old.tickets }
        ensures masters { IsFilledUp T.none self.old.masters self.new.masters }
        ensures asks { IsFilledUp T.none self.old.asks self.new.asks }
        ensures room { OnOk result (HasRoom self.new) }
    {
        if let Some(long) = &mut self.long {
            return long.reserve();
        }
        let Some(ticket) = self.only else {
            return Ok(());
        };
        let long = Long::of(alloc, ticket, &self.values)?;
        match Box::new(alloc, long) {
            Ok(long) => {
                self.long = Some(long);
                Ok(())
            }
            Err(_) => Err(AllocError),
        }
    }

    /// A ticket in a new slot, where nothing waits.
    pub(crate) fn push(&mut self, ticket: u32)
        requires { HasRoom self.old }
        ensures tickets { self.new.tickets ≡ self.old.tickets ++ ticket ∷ [] }
        ensures masters { self.new.masters ≡ slice_set self.old.masters (length self.old.tickets) T.none }
        ensures asks { self.new.asks ≡ slice_set self.old.asks (length self.old.tickets) T.none }
    {
        match &mut self.long {
            Some(long) => long.push(ticket),
            None => {
                self.only = Some(ticket);
                self.values = Both {
                    master: T::none(),
                    ask: T::none(),
                };
            }
        }
    }

    /// Keeps so many slots, and takes the tickets from the others.
    pub(crate) fn truncate(&mut self, count: usize)
        ensures tickets { self.new.tickets ≡ take count self.old.tickets }
        ensures masters { self.new.masters ≡ self.old.masters }
        ensures asks { self.new.asks ≡ self.old.asks }
    {
        match &mut self.long {
            Some(long) => long.truncate(count),
            None => {
                if count == 0 {
                    self.only = None;
                }
            }
        }
    }

    /// Puts a value of a kind at a slot.
    pub(crate) fn set(&mut self, kind: Kind, slot: usize, value: T)
        requires { slot < length (values_of kind self.old) }
        ensures tickets { self.new.tickets ≡ self.old.tickets }
        ensures value { values_of kind self.new ≡ slice_set (values_of kind self.old) slot value }
        ensures other { (k : _) → k ≢ kind → values_of k self.new ≡ values_of k self.old }
    {
        match &mut self.long {
            Some(long) => long.set(kind, slot, value),
            None => self.values = self.values.with(kind, value),
        }
    }

    /// The values at a slot.
    pub(crate) fn at(&self, slot: usize) -> Both<T>
        requires master { slot < length self.now.masters }
        requires ask { slot < length self.now.asks }
        ensures master { result.master ≡ slice_index_or self.now.masters slot T.none }
        ensures ask { result.ask ≡ slice_index_or self.now.asks slot T.none }
    {
        match &self.long {
            Some(long) => long.at(slot),
            None => self.values,
        }
    }

    /// Puts a value of each kind at a slot.
    pub(crate) fn set_both(&mut self, slot: usize, values: &Both<T>)
        requires master { slot < length self.old.masters }
        requires ask { slot < length self.old.asks }
        ensures tickets { self.new.tickets ≡ self.old.tickets }
        ensures masters { self.new.masters ≡ slice_set self.old.masters slot values.now.master }
        ensures asks { self.new.asks ≡ slice_set self.old.asks slot values.now.ask }
    {
        match &mut self.long {
            Some(long) => long.set_both(slot, values),
            None => self.values = *values,
        }
    }

    /// A value at or below those of a kind at all slots.
    pub(crate) fn root(&self, kind: Kind) -> T
        ensures { All (T.below result) (values_of kind self.now) }
    {
        match &self.long {
            Some(long) => long.root(kind),
            None => self.values.of(kind),
        }
    }

    /// The first slot, not before `from`, whose value of a kind passes the test.
    // Called for each user and each request that a search passes.
    #[inline]
    pub(crate) fn next<P: Test<T>>(&self, kind: Kind, from: usize, test: &P) -> Option<usize>
        ensures none { IfNone result (NonePasses (P.passes test.now) (values_of kind self.now) from) }
        ensures first { IfSome result (IsFirst (P.passes test.now) (values_of kind self.now) from) }
    {
        match &self.long {
            Some(long) => long.next(kind, from, test),
            None => if from == 0 && test.passes(&self.values.of(kind)) {
                Some(0)
            } else {
                None
            },
        }
    }

    /// The ticket in a slot goes to one that is not behind it, with the values.
    pub(crate) fn move_up(&mut self, from: usize, to: usize)
        requires to { to ≤ from }
        requires from { from < length self.old.tickets }
        requires line { IsLine self.old }
        ensures tickets { self.new.tickets ≡ slice_set self.old.tickets to (slice_index self.old.tickets from) }
        ensures masters { self.new.masters ≡ moved T.none from to self.old.masters }
        ensures asks { self.new.asks ≡ moved T.none from to self.old.asks }
    {
        // The only slot is the first one already.
        if let Some(long) = &mut self.long {
            long.move_up(from, to);
        }
    }
}

//! The search for the first seat whose application is given something.

ghost use Rattle.ynl_lanes.specs.lane.Waiting.{IsWaiting, waiting-below, waiting_within-below, IsWaitingWithin};
ghost use Rattle.std.specs.Prelude.{Some, IfSome, IfNone};
ghost use Rattle.ynl_slots.specs.Slots.{IsLive};
ghost use Rattle.ynl_lanes.specs.lane.Rows.{IsSeated, IsKept};
ghost use Rattle.ynl_lanes.specs.lane.Search.{NoneBefore, IsFirstGiven, IsOwn, IsOfStand, MayHaveGiven, WaitsAt};

use crate::firsts::Test;
use crate::lane::kinds::Kind;
use crate::lane::levels::{Level, seat_at};
use crate::lane::request::Request;
use crate::lane::rows::Rows;
use crate::lows::{Low, UserTest};
use ynl_resource::Resource;

/// A seat that was found, and what its application is given.
#[derive(Clone, Copy)]
pub(crate) struct Found<F: Copy> {
    pub(crate) ticket: u32,
    pub(crate) slot: u32,
    pub(crate) given: F,
}

/// Whether something waits.
#[derive(Clone, Copy)]
pub(crate) struct Waits;

impl Test<Low> for Waits {
    ghost passes = { λ _ low. IsWaiting low };

    ghost passes_below = { λ _. waiting-below };

    fn passes(&self, value: &Low) -> bool {
        !Low::NONE.fits(&value.amount())
    }
}

/// Any application is given nothing in particular.
#[derive(Clone, Copy)]
pub(crate) struct Any;

impl Request<()> for Any {
    ghost gives = { λ _ _. Some tt };

    fn of(&self, _app: u32) -> Option<()> {
        Some(())
    }
}

/// Whether something waits whose least fits in a room.
#[derive(Clone, Copy)]
pub(crate) struct WaitsWithin {
    pub(crate) room: Resource,
}

impl Test<Low> for WaitsWithin {
    ghost passes = { IsWaitingWithin };

    ghost passes_below = { waiting_within-below };

    fn passes(&self, value: &Low) -> bool {
        value.fits(&self.room) && Waits.passes(value)
    }
}

impl Rows {
    /// The first seat of a user, before the slot `end`, whose value passes the test and whose application is given something.
    pub(crate) fn first_own<F: Copy, P: Test<Low>, R: Request<F>>(
        &self,
        user: u32,
        kind: Kind,
        test: &P,
        request: &R,
        end: usize,
    ) -> Option<Found<F>>
        requires seated { IsSeated self.now }
        requires live { IsLive user self.now.users.entries }
        ensures none { IfNone result (NoneBefore (IsOwn self.now.users.entries user kind (P.passes test.now)) (R.gives request.now) self.now.seats.entries end) }
        ensures some { IfSome result (IsFirstGiven (IsOwn self.now.users.entries user kind (P.passes test.now)) (R.gives request.now) self.now.seats.entries end) }
    {
        let line = &self.users[user].line;
        let mut from = 0;
        while let Some(own) = line.next(kind, from, test) {
            if own >= line.len() {
                return None;
            }
            if let Some((ticket, row)) = seat_at(&self.seats, Level::User(user), line, own) {
                if row.slot as usize >= end {
                    return None;
                }
                if let Some(given) = request.of(row.app) {
                    return Some(Found {
                        ticket,
                        slot: row.slot,
                        given,
                    });
                }
            }
            from = own + 1;
        }
        None
    }

    /// The same for the user who stands in a slot of the lane, where something of a kind waits.
    fn first_of_stand<F: Copy, R: Request<F>, T: UserTest>(
        &self,
        stand: usize,
        kind: Kind,
        test: &T,
        request: &R,
        end: usize,
    ) -> Option<Found<F>>
        requires seated { IsSeated self.now }
        requires may { MayHaveGiven kind (T.may test.now) (R.gives request.now) self.now.seats.entries self.now.users.entries }
        ensures none { IfNone result (NoneBefore (IsOfStand stand kind self.now.seats.entries self.now.users.entries) (R.gives request.now) self.now.seats.entries end) }
        ensures some { IfSome result (IsFirstGiven (IsOfStand stand kind self.now.seats.entries self.now.users.entries) (R.gives request.now) self.now.seats.entries end) }
    {
        let Some((_ticket, row)) = seat_at(&self.seats, Level::Lane, &self.line, stand) else {
            return None;
        };
        let used = self.users[row.user].used;
        match test.room(used) {
            Some(room) => self.first_own(row.user, kind, &WaitsWithin { room }, request, end),
            None => None,
        }
    }

    /// The first seat before a slot at which something of a kind waits and whose application is given something.
    pub(crate) fn first<F: Copy, R: Request<F>, T: UserTest>(
        &self,
        kind: Kind,
        test: &T,
        request: &R,
        before: usize,
    ) -> Option<Found<F>>
        requires kept { IsKept self.now }
        requires may { MayHaveGiven kind (T.may test.now) (R.gives request.now) self.now.seats.entries self.now.users.entries }
        ensures none { IfNone result (NoneBefore (WaitsAt kind self.now.users.entries) (R.gives request.now) self.now.seats.entries before) }
        ensures some { IfSome result (IsFirstGiven (WaitsAt kind self.now.users.entries) (R.gives request.now) self.now.seats.entries before) }
    {
        let mut best: Option<Found<F>> = None;
        let mut end = before;
        let mut from = 0;
        while let Some(stand) = self.line.next(kind, from, test) {
            if stand >= end {
                return best;
            }
            if let Some(found) = self.first_of_stand(stand, kind, test, request, end) {
                end = found.slot as usize;
                best = Some(found);
            }
            from = stand + 1;
        }
        best
    }
}

//! Where a user stands in the lane: at the first own seat at which something waits.

ghost use Rattle.std.specs.Prelude.{◌≡◌, IfSome, IfNone};
ghost use Rattle.ynl_slots.specs.Slots.{IsLive};
ghost use Rattle.ynl_lanes.specs.declared.lane.kinds.Kind.{Kind};
ghost use Rattle.ynl_lanes.specs.lane.Rows.{IsSeated, AreStood, AreStoodBut, IsKept};
ghost use Rattle.ynl_lanes.specs.lane.Stands.{IsFirstWaiting, NoneWaits, ChangesStand};

use crate::lane::kinds::Kind;
use crate::lane::rows::Rows;
use crate::lane::search::{Any, Waits};
use crate::lows::UserLow;

impl Rows {
    /// The ticket of the user's first seat at which a request of a kind waits.
    fn first_waiting(&self, user: u32, kind: Kind) -> Option<u32>
        requires seated { IsSeated self.now }
        requires live { IsLive user self.now.users.entries }
        ensures some { IfSome result (IsFirstWaiting user kind self.now.seats.entries self.now.users.entries) }
        ensures none { IfNone result (NoneWaits user kind self.now.seats.entries self.now.users.entries) }
    {
        match self.first_own(user, kind, &Waits, &Any, self.line.len()) {
            Some(found) => Some(found.ticket),
            None => None,
        }
    }

    /// Nothing of the user stands any more at this seat, if it is one of the user's.
    fn clear_stand(&mut self, user: u32, kind: Kind, stand: Option<u32>)
        requires { IsSeated self.old }
        ensures seats { self.new.seats ≡ self.old.seats }
        ensures users { self.new.users ≡ self.old.users }
        ensures line { ChangesStand user kind self.old.seats.entries self.old.line self.new.line }
    {
        let Some(ticket) = stand else {
            return;
        };
        let Some(row) = self.seats.get(ticket) else {
            return;
        };
        if row.user == user {
            let slot = row.slot;
            self.line.set(kind, slot as usize, UserLow::NONE);
        }
    }

    /// The stand that is known of a user.
    fn known_stand(&self, user: u32, kind: Kind) -> Option<u32> {
        match self.stands.get(user as usize) {
            Some(stands) => stands.of(kind),
            None => None,
        }
    }

    /// The stand of a user is known.
    fn note_stand(&mut self, user: u32, kind: Kind, stand: Option<u32>)
        ensures seats { self.new.seats ≡ self.old.seats }
        ensures users { self.new.users ≡ self.old.users }
        ensures line { self.new.line ≡ self.old.line }
    {
        if (user as usize) < self.stands.len() {
            let stands = self.stands[user as usize];
            self.stands[user as usize] = stands.with(kind, stand);
        }
    }

    /// The user stands at no other seat than this any more.
    fn leave_stand(&mut self, user: u32, kind: Kind, stand: Option<u32>)
        requires { IsSeated self.old }
        ensures seats { self.new.seats ≡ self.old.seats }
        ensures users { self.new.users ≡ self.old.users }
        ensures line { ChangesStand user kind self.old.seats.entries self.old.line self.new.line }
    {
        let before = self.known_stand(user, kind);
        if before == stand {
            return;
        }
        self.clear_stand(user, kind, before);
        self.note_stand(user, kind, stand);
    }

    /// The user's least stands at the user's first seat at which something waits.
    fn put_least(&mut self, user: u32, kind: Kind, ticket: u32)
        requires seated { IsSeated self.old }
        requires live { IsLive user self.old.users.entries }
        requires first { IsFirstWaiting user kind self.old.seats.entries self.old.users.entries ticket }
        requires others { AreStoodBut user kind self.old }
        ensures seats { self.new.seats ≡ self.old.seats }
        ensures users { self.new.users ≡ self.old.users }
        ensures line { ChangesStand user kind self.old.seats.entries self.old.line self.new.line }
        ensures stood { AreStood kind self.new }
    {
        let row = &self.users[user];
        let least = UserLow {
            low: row.line.root(kind),
            used: row.used,
        };
        let slot = self.seats[ticket].slot;
        self.line.set(kind, slot as usize, least);
    }

    /// Brings the place of a user among the users up to date.
    fn stand(&mut self, user: u32, kind: Kind)
        requires seated { IsSeated self.old }
        requires live { IsLive user self.old.users.entries }
        requires others { AreStoodBut user kind self.old }
        ensures seats { self.new.seats ≡ self.old.seats }
        ensures users { self.new.users ≡ self.old.users }
        ensures line { ChangesStand user kind self.old.seats.entries self.old.line self.new.line }
        ensures stood { AreStood kind self.new }
    {
        let first = self.first_waiting(user, kind);
        self.leave_stand(user, kind, first);
        if let Some(ticket) = first {
            self.put_least(user, kind, ticket);
        }
    }

    /// The same for both kinds.
    pub(crate) fn stand_anew(&mut self, user: u32)
        requires seated { IsSeated self.old }
        requires live { IsLive user self.old.users.entries }
        requires others { (kind : Kind) → AreStoodBut user kind self.old }
        ensures seats { self.new.seats ≡ self.old.seats }
        ensures users { self.new.users ≡ self.old.users }
        ensures tickets { self.new.line.tickets ≡ self.old.line.tickets }
        ensures kept { IsKept self.new }
    {
        self.stand(user, Kind::Master);
        self.stand(user, Kind::Ask);
    }
}

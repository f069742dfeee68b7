//! Room for one more seat, and rows for users.

ghost use Rattle.std.specs.Prelude.{◌≡◌, ◌≢◌, ◌<◌, ◌++◌, ◌∷◌, [], OnOk, OnErr, IfOk, length, vec_capacity};
ghost use Rattle.ynl_slots.specs.Slots.{IsLive, IsUnused};
ghost use Rattle.ynl_lanes.specs.lane.Changes.{IsOwnRoom, ShowSame};
ghost use Rattle.ynl_lanes.specs.lane.Found.{EachSeat};
ghost use Rattle.ynl_lanes.specs.lane.Levels.{ArePairs};
ghost use Rattle.ynl_lanes.specs.lane.Lines.{HasRoom};
ghost use Rattle.ynl_lanes.specs.lane.Rooms.{IsSameSeat};
ghost use Rattle.ynl_lanes.specs.lane.Rows.{IsKept, IsUserRow};

use crate::lane::kinds::Both;
use crate::lane::levels::Level;
use crate::lane::pack::make_room;
use crate::lane::rows::{Rows, UserRow};
use std::alloc::AllocError;

impl Rows {
    /// Makes room for one more seat in the lane. It fails if memory is refused, and at 2^32 - 1 seats.
    pub(crate) fn make_room(&mut self) -> Result<(), AllocError>
        requires { IsKept self.old }
        ensures kept { IsKept self.new }
        ensures seats { ArePairs (IsSameSeat self.old.users.entries self.new.users.entries) self.old.seats.entries self.new.seats.entries }
        ensures users { self.new.users ≡ self.old.users }
        ensures seat_room { OnOk result (0 < self.new.seats.room) }
        ensures room { OnOk result (HasRoom self.new.line) }
    {
        self.seats.reserve_one()?;
        let alloc = *self.stands.allocator();
        make_room(&mut self.seats, &mut self.line, Level::Lane, alloc)
    }

    /// Makes room for one more seat in a user's line. It fails if memory is refused, and at 2^32 - 1 seats.
    pub(crate) fn make_own_room(&mut self, user: u32) -> Result<(), AllocError>
        requires kept { IsKept self.old }
        requires live { IsLive user self.old.users.entries }
        ensures kept { IsKept self.new }
        ensures seats { ArePairs (IsSameSeat self.old.users.entries self.new.users.entries) self.old.seats.entries self.new.seats.entries }
        ensures users { ShowSame self.old.users.entries self.new.users.entries }
        ensures seat_room { self.new.seats.room ≡ self.old.seats.room }
        ensures line { self.new.line ≡ self.old.line }
        ensures room { OnOk result (IsOwnRoom user self.new.users.entries) }
    {
        if self.users[user].live >= u32::MAX {
            return Err(AllocError);
        }
        let alloc = *self.stands.allocator();
        let row = &mut self.users[user];
        make_room(&mut self.seats, &mut row.line, Level::User(user), alloc)
    }

    /// A row for a user. It fails if memory is refused, and at 2^32 - 1 users.
    pub(crate) fn open(&mut self, row: UserRow) -> Result<u32, AllocError>
        requires kept { IsKept self.old }
        requires row { IsUserRow 0 row }
        ensures kept { IsKept self.new }
        ensures seats { self.new.seats ≡ self.old.seats }
        ensures line { self.new.line ≡ self.old.line }
        ensures ok { IfOk result (λ number. self.new.users.entries ≡ self.old.users.entries ++ (number, row) ∷ []) }
        ensures unused { IfOk result (λ number. IsUnused number self.old.users.entries) }
        ensures none { IfOk result (λ number. EachSeat (λ _ seat. seat.user ≢ number) self.old.seats.entries) }
        ensures err { OnErr result (self.new.users.entries ≡ self.old.users.entries) }
    {
        self.users.reserve_one()?;
        self.stands.reserve(1)?;
        let number = self.users.push(row);
        self.forget_stands(number);
        Ok(number)
    }

    /// The user of a number stands nowhere.
    fn forget_stands(&mut self, user: u32)
        requires { length self.old.stands.items < vec_capacity self.old.stands }
        ensures seats { self.new.seats ≡ self.old.seats }
        ensures users { self.new.users ≡ self.old.users }
        ensures line { self.new.line ≡ self.old.line }
    {
        let nowhere = Both {
            master: None,
            ask: None,
        };
        if (user as usize) < self.stands.len() {
            self.stands[user as usize] = nowhere;
        } else {
            self.stands.push_reserved(nowhere);
        }
    }
}

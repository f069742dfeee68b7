//! How the rows of a lane change.

ghost use Rattle.std.specs.Prelude.{◌≡◌, ◌≢◌, ◌<◌, ◌+◌, ◌-◌, ◌^◌, IsTrue, option_map, Some, nat_eq};
ghost use Rattle.std.specs.Map.{lookup};
ghost use Rattle.ynl_slots.specs.Slots.{IsLive, without};
ghost use Rattle.ynl_lanes.specs.declared.lane.kinds.Kind.{Kind};
ghost use Rattle.ynl_lanes.specs.lows.Lows.{no_size};
ghost use Rattle.ynl_lanes.specs.lane.Changes.{SetsWaits, KeepWaits, HasValuesAt, AreValues, SetsValues, SetsUsed, PushesOwn, PushesSeat, IsOwnRoom, IsPulled, ShowSame, ShowsOther};
ghost use Rattle.ynl_lanes.specs.lane.Found.{EachSeat};
ghost use Rattle.ynl_lanes.specs.lane.Lines.{HasRoom};
ghost use Rattle.ynl_lanes.specs.lane.Rows.{waits_in, IsKept, IsUse};

use crate::lane::kinds::Both;
use crate::lane::rows::{Rows, SeatRow, UserRow};
use crate::lows::Low;
use ynl_resource::Resource;
use ynl_slots::Slots;

/// Whether the user's line has just these values at a slot.
fn has_values(users: &Slots<UserRow>, user: u32, slot: usize, waits: &Both<Low>) -> bool
    requires live { IsLive user users.now.entries }
    requires inside { HasValuesAt user slot users.now.entries }
    ensures { IsTrue result → AreValues user slot waits.now users.now.entries }
{
    let before = users[user].line.at(slot);
    before.master == waits.master && before.ask == waits.ask
}

/// The user's line has what waits at a slot.
fn set_values(users: &mut Slots<UserRow>, user: u32, slot: usize, waits: &Both<Low>)
    requires live { IsLive user users.old.entries }
    requires inside { HasValuesAt user slot users.old.entries }
    ensures { SetsValues user slot waits.now users.old.entries users.new.entries }
{
    users[user].line.set_both(slot, waits);
}

/// A user uses another amount.
fn set_used(users: &mut Slots<UserRow>, user: u32, used: Resource)
    requires { IsLive user users.old.entries }
    ensures { SetsUsed user used users.old.entries users.new.entries }
{
    users[user].used = used;
}

/// One more seat of a user, which comes last in the user's line.
fn push_own(users: &mut Slots<UserRow>, user: u32, ticket: u32)
    requires live { IsLive user users.old.entries }
    requires room { IsOwnRoom user users.old.entries }
    ensures { PushesOwn user ticket users.old.entries users.new.entries }
{
    let row = &mut users[user];
    row.live += 1;
    row.line.push(ticket);
}

/// One seat less of a user.
fn pull_own(users: &mut Slots<UserRow>, user: u32)
    requires live { IsLive user users.old.entries }
    requires some { (row : _) → lookup (nat_eq user) users.old.entries ≡ Some row → 0 < row.live }
    ensures { IsPulled user users.old.entries users.new.entries }
{
    let row = &mut users[user];
    row.live -= 1;
}

impl Rows {
    /// Other things wait at a seat, and its user stands where that leads to.
    pub(crate) fn enter(&mut self, ticket: u32, waits: &Both<Low>)
        requires kept { IsKept self.old }
        requires live { IsLive ticket self.old.seats.entries }
        ensures kept { IsKept self.new }
        ensures seats { self.new.seats ≡ self.old.seats }
        ensures waits { SetsWaits ticket waits.now self.old.seats.entries self.old.users.entries self.new.users.entries }
        ensures users { ShowSame self.old.users.entries self.new.users.entries }
    {
        let row = self.seats[ticket];
        if has_values(&self.users, row.user, row.own_slot as usize, waits) {
            return;
        }
        set_values(&mut self.users, row.user, row.own_slot as usize, waits);
        self.stand_anew(row.user);
    }

    /// A user uses another amount, and stands where that leads to.
    pub(crate) fn use_other(&mut self, user: u32, used: Resource)
        requires kept { IsKept self.old }
        requires live { IsLive user self.old.users.entries }
        requires small { IsUse used }
        ensures kept { IsKept self.new }
        ensures seats { self.new.seats.entries ≡ self.old.seats.entries }
        ensures waits { KeepWaits self.old.users.entries self.new.users.entries self.old.seats.entries }
        ensures users { ShowsOther user (λ shown. record shown { used = used }) self.old.users.entries self.new.users.entries }
    {
        set_used(&mut self.users, user, used);
        self.stand_anew(user);
    }

    /// One more seat of a user, at which nothing waits. It returns the ticket.
    pub(crate) fn push(&mut self, user: u32, app: u32) -> u32
        requires kept { IsKept self.old }
        requires live { IsLive user self.old.users.entries }
        requires seat_room { 0 < self.old.seats.room }
        requires room { HasRoom self.old.line }
        requires own_room { IsOwnRoom user self.old.users.entries }
        ensures kept { IsKept self.new }
        ensures seats { PushesSeat app user result self.new.users.entries self.old.seats.entries self.new.seats.entries }
        ensures waits { KeepWaits self.old.users.entries self.new.users.entries self.old.seats.entries }
        ensures small { result < 2 ^ 32 - 1 }
        ensures users { ShowsOther user (λ shown. record shown { live = shown.live + 1 }) self.old.users.entries self.new.users.entries }
    {
        let slot = self.line.len() as u32;
        let own_slot = self.users[user].line.len() as u32;
        let ticket = self.seats.push(SeatRow {
            app,
            user,
            slot,
            own_slot,
        });
        self.line.push(ticket);
        push_own(&mut self.users, user, ticket);
        ticket
    }

    /// A seat goes at which nothing waits. It returns the user.
    pub(crate) fn pull(&mut self, ticket: u32) -> u32
        requires kept { IsKept self.old }
        requires live { IsLive ticket self.old.seats.entries }
        requires nothing { (row : _) → lookup (nat_eq ticket) self.old.seats.entries ≡ Some row → (kind : Kind) → waits_in kind self.old.users.entries row ≡ no_size }
        requires some { (row : _) (own : _) → lookup (nat_eq ticket) self.old.seats.entries ≡ Some row → lookup (nat_eq row.user) self.old.users.entries ≡ Some own → 0 < own.live }
        ensures kept { IsKept self.new }
        ensures user { option_map (λ row. row.user) (lookup (nat_eq ticket) self.old.seats.entries) ≡ Some result }
        ensures seats { self.new.seats.entries ≡ without ticket self.old.seats.entries }
        ensures waits { KeepWaits self.old.users.entries self.new.users.entries self.old.seats.entries }
        ensures users { ShowsOther result (λ shown. record shown { live = shown.live - 1 }) self.old.users.entries self.new.users.entries }
    {
        let row = self.seats.remove(ticket);
        pull_own(&mut self.users, row.user);
        row.user
    }

    /// The row of a user goes who has no seat. It returns the user.
    pub(crate) fn close(&mut self, user: u32) -> u32
        requires kept { IsKept self.old }
        requires live { IsLive user self.old.users.entries }
        requires none { EachSeat (λ _ row. row.user ≢ user) self.old.seats.entries }
        ensures kept { IsKept self.new }
        ensures user { option_map (λ row. row.user) (lookup (nat_eq user) self.old.users.entries) ≡ Some result }
        ensures seats { self.new.seats ≡ self.old.seats }
        ensures users { self.new.users.entries ≡ without user self.old.users.entries }
        ensures line { self.new.line ≡ self.old.line }
    {
        let row = self.users.remove(user);
        row.user
    }
}

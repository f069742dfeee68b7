//! The rows of a lane's users, and the map that leads from a user to the row.

ghost use Rattle.std.specs.Prelude.{◌≡◌, ◌≢◌, map, None, Some, IfSome, IfNone, IfOk, OnErr, nat_eq, option_map};
ghost use Rattle.std.specs.Map.{lookup};
ghost use Rattle.std.specs.BTreeMap.{get};
ghost use Rattle.std.specs.Ordering.{nat_cmp};
ghost use Rattle.ynl_slots.specs.Slots.{IsLive, without};
ghost use Rattle.ynl_lanes.specs.lane.Fields.{AreKeyed, AreUsersOf, IsReady, Opens, user_by, ok_of, seat_of};
ghost use Rattle.ynl_lanes.specs.lane.Found.{EachSeat};
ghost use Rattle.ynl_lanes.specs.lane.Rows.{EachUser, IsKept};

use crate::lane::line::Line;
use crate::lane::rows::{Rows, UserRow};
use std::alloc::AllocError;
use std::collections::BTreeMap;
use ynl_resource::Resource;

/// The number of a user's row.
fn find(rows: &Rows, numbers: &BTreeMap<u32, u32>, user: u32) -> Option<u32>
    requires { AreKeyed (λ n. get nat_cmp numbers.now n) rows.now.users.entries }
    ensures some { IfSome result (λ number. option_map (λ row. row.user) (lookup (nat_eq number) rows.now.users.entries) ≡ Some user) }
    ensures none { IfNone result (EachUser (λ _ row. row.user ≢ user) rows.now.users.entries) }
{
    let Some(number) = numbers.get(&user) else {
        return None;
    };
    let Some(row) = rows.users.get(*number) else {
        return None;
    };
    if row.user == user {
        Some(*number)
    } else {
        None
    }
}

/// The row of a user goes who has no seat.
pub(crate) fn close(rows: &mut Rows, numbers: &mut BTreeMap<u32, u32>, number: u32)
    requires kept { IsKept rows.old }
    requires live { IsLive number rows.old.users.entries }
    requires none { EachSeat (λ _ row. row.user ≢ number) rows.old.seats.entries }
    requires keyed { AreKeyed (λ n. get nat_cmp numbers.old n) rows.old.users.entries }
    ensures kept { IsKept rows.new }
    ensures seats { rows.new.seats ≡ rows.old.seats }
    ensures users { rows.new.users.entries ≡ without number rows.old.users.entries }
    ensures keyed { AreKeyed (λ n. get nat_cmp numbers.new n) rows.new.users.entries }
{
    let user = rows.close(number);
    let _number = numbers.remove(&user);
}

/// A row for a user who has none, with room for a seat. It fails if memory is refused, and at 2^32 - 1 users.
fn open(rows: &mut Rows, numbers: &mut BTreeMap<u32, u32>, user: u32) -> Result<u32, AllocError>
    requires kept { IsKept rows.old }
    requires absent { EachUser (λ _ row. row.user ≢ user) rows.old.users.entries }
    requires keyed { AreKeyed (λ n. get nat_cmp numbers.old n) rows.old.users.entries }
    ensures kept { IsKept rows.new }
    ensures seats { rows.new.seats ≡ rows.old.seats }
    ensures line { rows.new.line ≡ rows.old.line }
    ensures ok { IfOk result (λ number. Opens number user rows.old.users.entries rows.new.users.entries) }
    ensures err { OnErr result (rows.new.users.entries ≡ rows.old.users.entries) }
    ensures keyed { AreKeyed (λ n. get nat_cmp numbers.new n) rows.new.users.entries }
{
    let number = rows.open(UserRow {
        user,
        used: Resource {
            memory: 0,
            vcores: 0,
        },
        live: 0,
        line: Line::new(),
    })?;
    match numbers.insert(user, number) {
        Ok(_) => Ok(number),
        Err(_) => {
            let _user = rows.close(number);
            Err(AllocError)
        }
    }
}

/// Makes room for the next seat of a user. It fails if memory is refused, and at 2^32 - 1 seats or users.
pub(crate) fn make_room_for(
    rows: &mut Rows,
    numbers: &mut BTreeMap<u32, u32>,
    user: u32,
) -> Result<u32, AllocError>
    requires kept { IsKept rows.old }
    requires users { AreUsersOf (λ n. get nat_cmp numbers.old n) None rows.old.seats.entries rows.old.users.entries }
    ensures kept { IsKept rows.new }
    ensures seats { map (seat_of rows.new.users.entries) rows.new.seats.entries ≡ map (seat_of rows.old.users.entries) rows.old.seats.entries }
    ensures users { AreUsersOf (λ n. get nat_cmp numbers.new n) (ok_of result) rows.new.seats.entries rows.new.users.entries }
    ensures ready { IfOk result (IsReady rows.new) }
    ensures user { IfOk result (λ number. user_by number rows.new.users.entries ≡ user) }
{
    match rows.make_room() {
        Ok(()) => {}
        Err(error) => return Err(error),
    }
    match find(rows, numbers, user) {
        Some(number) => match rows.make_own_room(number) {
            Ok(()) => Ok(number),
            Err(error) => Err(error),
        },
        None => open(rows, numbers, user),
    }
}

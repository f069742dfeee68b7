//! Room for one more seat: the seats of a line move up to its front, and as much room again is made behind them.

ghost use Rattle.std.specs.Prelude.{◌≡◌, ◌<◌, ◌-◌, nat_eq, OnOk};
ghost use Rattle.std.specs.Map.{lookup};
ghost use Rattle.ynl_slots.specs.Slots.{IsLive, HasDistinctNumbers};
ghost use Rattle.ynl_lanes.specs.lane.Lines.{IsLine, HasRoom};
ghost use Rattle.ynl_lanes.specs.lane.Levels.{at_slot, stands_at, AreIn, ArePairs, IsMoved};
ghost use Rattle.ynl_lanes.specs.lane.Moves.{Moves};

use crate::firsts::Least;
use crate::lane::levels::Level;
use crate::lane::line::Line;
use crate::lane::rows::SeatRow;
use std::alloc::{AllocError, Global};
use ynl_slots::Slots;

/// Whether the seat of a ticket stands in a slot of the line.
fn is_at(seats: &Slots<SeatRow>, level: Level, ticket: u32, slot: usize) -> bool
    ensures value { result ≡ stands_at level slot (lookup (nat_eq ticket) seats.now.entries) }
{
    match seats.get(ticket) {
        Some(row) => row.is_at(level, slot),
        None => false,
    }
}

/// The seat of a ticket goes to another slot of the line.
fn put(seats: &mut Slots<SeatRow>, level: Level, ticket: u32, slot: u32)
    requires { IsLive ticket seats.old.entries }
    ensures moved { Moves level ticket slot seats.old.entries seats.new.entries }
    ensures room { seats.new.room ≡ seats.old.room }
{
    let row = seats[ticket];
    seats[ticket] = row.at_slot(level, slot);
}

/// All seats of a line move up to its front, in order.
// Done seldom: it does not stand where room is made for each seat.
#[inline(never)]
fn pack<T: Least>(seats: &mut Slots<SeatRow>, line: &mut Line<T>, level: Level)
    requires line { IsLine line.old }
    requires seats { AreIn level line.old.tickets seats.old.entries }
    requires distinct { HasDistinctNumbers seats.old.entries }
    ensures line { IsLine line.new }
    ensures seats { AreIn level line.new.tickets seats.new.entries }
    ensures distinct { HasDistinctNumbers seats.new.entries }
    ensures moved { ArePairs (IsMoved level line.old line.new) seats.old.entries seats.new.entries }
    ensures room { seats.new.room ≡ seats.old.room }
{
    let mut next = 0;
    for slot in 0..line.len() {
        let Some(ticket) = line.ticket(slot) else {
            unreachable!();
        };
        if is_at(seats, level, ticket, slot) {
            put(seats, level, ticket, next as u32);
            line.move_up(slot, next);
            next += 1;
        }
    }
    line.truncate(next);
}

/// Whether the lane has fewer seats than half of a line's tickets, so that most of these are of seats that went.
fn is_sparse<T: Least>(seats: &Slots<SeatRow>, line: &Line<T>) -> bool {
    seats.len() < line.len() / 2
}

/// Makes room in a line for one more seat. A line that is full is packed, and so is a sparse one, so that its slots are few
/// again where many seats went. It fails if memory is refused, and at 2^32 - 1 seats.
pub(crate) fn make_room<T: Least>(
    seats: &mut Slots<SeatRow>,
    line: &mut Line<T>,
    level: Level,
    alloc: Global,
) -> Result<(), AllocError>
    requires line { IsLine line.old }
    requires seats { AreIn level line.old.tickets seats.old.entries }
    requires distinct { HasDistinctNumbers seats.old.entries }
    ensures line { IsLine line.new }
    ensures seats { AreIn level line.new.tickets seats.new.entries }
    ensures distinct { HasDistinctNumbers seats.new.entries }
    ensures moved { ArePairs (IsMoved level line.old line.new) seats.old.entries seats.new.entries }
    ensures seat_room { seats.new.room ≡ seats.old.room }
    ensures room { OnOk result (HasRoom line.new) }
{
    if line.has_room() && !is_sparse(seats, line) {
        return Ok(());
    }
    pack(seats, line, level);
    line.reserve(alloc)
}

//! The lines that a seat stands in: that of the lane, and that of its user.

ghost use Rattle.std.specs.Prelude.{◌≡◌, IfSome, IfNone};
ghost use Rattle.ynl_lanes.specs.lane.Levels.{slot_in, at_slot, is_slot, AreIn};
ghost use Rattle.ynl_lanes.specs.lane.Found.{EachSeat, IsSeatAt};

use crate::firsts::Least;
use crate::lane::line::Line;
use crate::lane::rows::SeatRow;
use ynl_slots::Slots;

/// Which line: that of the lane, or that of a user.
#[derive(Clone, Copy)]
pub(crate) enum Level {
    Lane,
    User(u32),
}

impl SeatRow {
    /// The seat's slot in a line, if it is in it.
    pub(crate) fn slot_in(&self, level: Level) -> Option<u32>
        ensures { result ≡ slot_in level self.now }
    {
        match level {
            Level::Lane => Some(self.slot),
            Level::User(user) => if self.user == user {
                Some(self.own_slot)
            } else {
                None
            },
        }
    }

    /// Whether the seat stands in a slot of a line.
    pub(crate) fn is_at(&self, level: Level, slot: usize) -> bool
        ensures { result ≡ is_slot slot (slot_in level self.now) }
    {
        match self.slot_in(level) {
            Some(at) => at as usize == slot,
            None => false,
        }
    }

    /// The seat with another slot in a line, if it stands in it.
    pub(crate) fn at_slot(self, level: Level, slot: u32) -> SeatRow
        ensures { result ≡ at_slot level slot self }
    {
        match level {
            Level::Lane => SeatRow { slot, ..self },
            Level::User(user) => {
                if self.user == user {
                    SeatRow {
                        own_slot: slot,
                        ..self
                    }
                } else {
                    self
                }
            }
        }
    }
}

/// The seat that stands in a slot of a line, with its ticket, if there is one.
pub(crate) fn seat_at<T: Least>(
    seats: &Slots<SeatRow>,
    level: Level,
    line: &Line<T>,
    slot: usize,
) -> Option<(u32, SeatRow)>
    requires { AreIn level line.now.tickets seats.now.entries }
    ensures found { IfSome result (λ f. IsSeatAt level slot seats.now.entries f.0 f.1) }
    ensures none { IfNone result (EachSeat (λ n row. ¬ (slot_in level row ≡ Some slot)) seats.now.entries) }
{
    let Some(ticket) = line.ticket(slot) else {
        return None;
    };
    let Some(row) = seats.get(ticket) else {
        return None;
    };
    if !row.is_at(level, slot) {
        return None;
    }
    Some((ticket, *row))
}

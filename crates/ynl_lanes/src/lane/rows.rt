//! The rows of seats and of users.

use crate::lane::kinds::Both;
use crate::lane::line::Line;
use crate::lows::{Low, UserLow};
use ynl_resource::Resource;
use ynl_slots::Slots;

/// The seat of an application.
#[derive(Clone, Copy)]
pub(crate) struct SeatRow {
    pub(crate) app: u32,
    /// The number of the user's row.
    pub(crate) user: u32,
    /// The slot among all seats of the lane.
    pub(crate) slot: u32,
    /// The slot among the seats of the user.
    pub(crate) own_slot: u32,
}

/// A user with seats.
#[derive(Drop)]
pub(crate) struct UserRow {
    /// The user's number among all users of the cluster.
    pub(crate) user: u32,
    /// How many seats the user has. It stands beside the number, which leaves no gap in the row.
    pub(crate) live: u32,
    pub(crate) used: Resource,
    /// The user's seats, with what waits at each.
    pub(crate) line: Line<Low>,
}

/// All rows of a lane.
#[derive(Drop)]
pub(crate) struct Rows {
    pub(crate) seats: Slots<SeatRow>,
    pub(crate) users: Slots<UserRow>,
    /// All seats. At the slot of a user's first seat at which something waits stands the user's least.
    pub(crate) line: Line<UserLow>,
    /// By the number of a user: the tickets of the seats at which the user stands. A ticket that is not known only
    /// costs time.
    pub(crate) stands: Vec<Both<Option<u32>>>,
}

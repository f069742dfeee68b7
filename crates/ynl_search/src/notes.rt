//! Queues below which nothing may be placed: what is noted of them, and how that is kept right.

pub use leaves::{lane_of, least_asked, least_in, less_of};
pub use noted::Noted;
pub use shut::Shut;
pub use upkeep::{ask, end, finish, place, submit};

mod leaves;
mod note_table;
mod noted;
mod row;
mod shut;
mod upkeep;

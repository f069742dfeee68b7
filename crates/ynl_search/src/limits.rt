//! The user limits of one leaf on one partition, by its numbers there: the most that a user may use, and a
//! test of it that divides nothing.

pub use limits::Limits;

mod limits;
mod shares;

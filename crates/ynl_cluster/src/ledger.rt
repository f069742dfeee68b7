//! What the queues use of the partitions, and how much there is of each: what the rows tell, and how
//! that changes with them.

pub use tallies::tally_of;
pub use totals::{Total, Totals};

pub mod bounds;
pub mod changes;
pub mod meaning;
pub mod opening;
mod tallies;
mod totals;

//! What the queues use of the partitions, by numbers.

pub use tally::{Counted, Tally};
pub use uses::Uses;

mod tally;
mod uses;

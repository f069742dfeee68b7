//! What is set of queues, by numbers: which are stopped, and what parts of the partitions they have.

pub use shares::{Share, Shares};
pub use stops::Stops;

mod shares;
mod stops;

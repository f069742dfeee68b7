//! Why the requests of an application wait: what an explanation reads of a cluster.

pub use limits::{master_limit_of, user_limit_of};
pub use reading::explain;

mod asking;
mod cells;
mod gathering;
mod limits;
mod reading;
pub mod reasons;

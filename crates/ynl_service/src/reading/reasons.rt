//! The reasons of the requests of an application, worked out from what is read of a cluster.

pub use explaining::explain;
pub use facts::{Facts, Found};

mod choosing;
mod explaining;
mod facts;
mod grounds;
mod limits;
mod telling;

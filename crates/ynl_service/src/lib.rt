//! What is placed on nodes, by heartbeats and by commits; and why requests wait.
#![tactic(auto)]

pub use checking::check;
pub use limits::{place_of, used_by};
pub use proposing::proposed;
pub use serving::serve;

mod access;
mod checking;
mod limits;
mod proposing;
pub mod reading;
mod serving;

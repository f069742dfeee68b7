//! Lanes: the applications of a leaf that may use a partition, in the order of their submission, and what
//! waits of each. The first of them with a request that can be placed is found in few steps.

pub use kinds::{Both, Kind};
pub use lane::Lane;
pub use request::Request;

mod apps;
mod changes;
mod kinds;
mod lane;
mod levels;
mod line;
mod long;
mod pack;
mod request;
mod room;
mod rows;
mod search;
mod stands;
mod users;

//! Which seats the lanes have, and how they follow the rows of an inventory.

pub use containers::{follow_end, follow_placement};
pub use entries::enter;
pub use seats::{reserve, seat, unseat};
pub use uses::{use_less, use_more};

mod containers;
mod entries;
pub mod laws;
mod seats;
mod uses;
mod waits;

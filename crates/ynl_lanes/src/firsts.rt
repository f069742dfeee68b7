//! Values in places, and the first place from some place on whose value passes a test.

pub use firsts::Firsts;
pub use least::{Least, Test};

mod firsts;
mod least;
mod tree;

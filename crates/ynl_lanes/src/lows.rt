//! The least that a leaf's waiting requests need on a partition, and the tests with which a search skips
//! those that cannot be placed.

pub use laws::{lows_pass, none_fits};
pub use low::Low;
pub use user_test::UserTest;
pub use users::UserLow;
pub use within::Within;

mod laws;
mod low;
mod user_test;
mod users;
mod within;

//! The users of a cluster under numbers.

pub use users::Users;

mod users;

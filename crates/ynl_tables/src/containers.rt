//! The containers of one partition under numbers: in the order of placement, by clock, and in chains by node and by application.

pub use container::{Container, Role};
pub use containers::Containers;

mod container;
mod containers;
mod row;

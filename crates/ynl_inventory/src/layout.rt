//! The queues of a configuration under numbers: root is 0, and the others follow in its order.

pub use layout::Layout;

mod building;
mod layout;
pub mod settings;

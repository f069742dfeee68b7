//! The search for what is placed next on a node: the descent of the queue tree, the limits that it keeps, and the notes of
//! where it found nothing.
#![tactic(auto)]

pub use choosing::{choose, some_own};
pub use found::Found;
pub use headroom::Headroom;
pub use leaf::LeafTests;
pub use leaves::{cell_of, first_guest_in_leaf, first_in_leaf, is_shut_leaf, tests_of};
pub use own::ticket_of;
pub use place::{ANY, Cell, Place};
pub use queues::{child_at, child_in, reach, root_at, standing_at};
pub use reached::Reached;

mod choosing;
pub mod descent;
mod found;
mod guest_tree;
mod guests;
mod headroom;
pub mod laws;
mod leaf;
mod leasts;
mod leaves;
pub mod limits;
mod lowest;
pub mod notes;
mod open_child;
mod own;
mod own_tree;
mod place;
mod queues;
mod reached;
mod user_limits;

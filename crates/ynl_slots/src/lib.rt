//! Rows under the numbers of their slots, in the order of their pushes, and chains of them. A row that goes moves no other.
#![tactic(auto)]

pub use chain::{Chain, Linked, Links};
pub use number::MaybeRow;
pub use slots::Slots;

mod chain;
mod growth;
mod number;
mod slots;

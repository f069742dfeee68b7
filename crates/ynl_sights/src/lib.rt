//! Sights: owned copies of what a choice on a node reads, and the choice made from one.
#![tactic(auto)]

pub use lists::LeafLists;
pub use planning::plan;
pub use sights::Sight;

mod copying;
mod gathering;
pub mod laws;
mod lists;
mod order;
mod planning;
mod rows;
mod sights;
mod ways;

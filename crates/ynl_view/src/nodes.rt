//! Nodes in the order of joining: found by name, and counted by label.

pub use nodes::Nodes;

mod counts;
mod nodes;

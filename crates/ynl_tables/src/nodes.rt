//! The nodes of a cluster under numbers: in the order of joining, and by name.

pub use nodes::{NodeRow, Nodes};

mod nodes;
mod numbers;

//! Nodes.

use ynl_resource::{Label, Name, Size};

/// A node: its name, its partition, its size, and the clock of the partition after the node's last
/// change.
#[derive(Clone, Copy)]
pub struct Node {
    pub name: Name,
    pub label: Label,
    pub size: Size,
    pub stamp: u64,
}

/// A node without its stamp: its name, its partition and its size.
#[derive(Clone, Copy)]
pub struct Tracked {
    pub name: Name,
    pub label: Label,
    pub size: Size,
}

//! A container of a partition.

use ynl_resource::Size;

/// What a container is to its application. It has the number of a partition where `What` of the model has its label.
#[derive(Clone, Copy, PartialEq, Eq)]
pub enum Role {
    /// Its master, of which an application has at most one.
    Master,
    /// One that it asked for, on this partition and at this priority.
    Ask { partition: u8, priority: u32 },
}

/// A container. Its node and its application are given by their numbers.
#[derive(Clone, Copy)]
pub struct Container {
    /// The clock of the partition after the placement.
    pub clock: u64,
    pub node: u32,
    pub app: u32,
    pub role: Role,
    pub size: Size,
}

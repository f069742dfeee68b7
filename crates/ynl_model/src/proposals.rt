//! Proposals of what to place.

use ynl_resource::{Label, Name, Size};

/// What a container is to its application.
#[derive(Clone, Copy, PartialEq, Eq)]
pub enum What {
    /// Its master, of which an application has at most one.
    Master,
    /// One that it asked for, under this label and at this priority.
    Ask(Label, u32),
}

/// A container that may be placed: on which node, seen at which stamp, and for which request.
#[derive(Clone, Copy, PartialEq, Eq)]
pub struct Proposal {
    pub node: Name,
    pub stamp: u64,
    pub tenant: Name,
    pub app: Name,
    pub what: What,
    pub size: Size,
}

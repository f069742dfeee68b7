//! Containers.

use crate::proposals::What;
use ynl_resource::{Id, Name, Size};

/// A container on a node.
#[derive(Clone, Copy, PartialEq, Eq)]
pub struct Placed {
    pub id: Id,
    pub node: Name,
    pub tenant: Name,
    pub app: Name,
    pub what: What,
    pub size: Size,
}

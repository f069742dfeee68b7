//! What an application asks for.

use ynl_resource::{Label, Size};

/// What an application asks for: how many containers of a size, under a label and at a priority.
#[derive(Clone, Copy)]
pub struct AskRow {
    pub label: Label,
    pub priority: u32,
    pub count: u32,
    pub size: Size,
}

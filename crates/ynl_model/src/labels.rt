//! Labels, as they are configured.

use ynl_resource::Name;

/// A label: its name, whether its partition is exclusive, and how far the partition's clock goes.
#[derive(Clone, Copy)]
pub struct LabelRow {
    pub name: Name,
    pub exclusive: bool,
    pub limit: u64,
}

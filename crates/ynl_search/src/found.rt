//! A request that was found.

use ynl_resource::Size;
use ynl_tables::containers::Role;

/// A request that was found: of which application, for what, and how large.
#[derive(Clone, Copy)]
pub struct Found {
    pub app: u32,
    pub role: Role,
    pub size: Size,
}

//! How the tree of a configuration is written.

/// How wide the columns of queues and of labels are, in bytes.
#[derive(Clone, Copy)]
pub struct Widths {
    pub queue: usize,
    pub label: usize,
}

/// How the tree is written.
#[derive(Clone, Copy)]
pub enum Style {
    /// A JSON object on each line.
    Objects,
    /// In columns, for a reader.
    Columns(Widths),
}

//! What the lines of a saved state tell.

use ynl_model::{AskRow, Node, Placed};
use ynl_resource::{Hundredths, Label, Name, Path, Size};

/// A line of a saved state.
#[derive(Clone, Copy)]
pub enum StateLine {
    /// The first line: the version, which is 1.
    Begin,
    /// A partition, with its clock.
    Partition {
        label: Label,
        clock: u64,
    },
    /// A node; nodes come in the order of joining.
    Node(Node),
    /// A live application, with its home label and the size of its master.
    Live {
        queue: Path,
        app: Name,
        user: Name,
        label: Label,
        master: Size,
    },
    /// What a live application asks for.
    Ask {
        tenant: Name,
        app: Name,
        ask: AskRow,
    },
    /// A finished application, whose name stays used in its leaf's tenant.
    Finished {
        queue: Path,
        app: Name,
    },
    /// A container on a node.
    Container(Placed),
    /// A queue that is stopped.
    Stopped {
        queue: Path,
    },
    /// A maximum that is not the configured one, in hundredths of a percent.
    Maximum {
        queue: Path,
        label: Label,
        maximum: Hundredths,
    },
    /// The last line: how many lines stand before it.
    End {
        lines: u64,
    },
}

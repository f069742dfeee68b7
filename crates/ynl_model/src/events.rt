//! What can happen to the cluster.

use crate::proposals::Proposal;
use ynl_resource::{Hundredths, Id, Label, Name, Path, Size};

/// What can happen to the cluster, or be asked of it.
#[derive(Clone, Copy, PartialEq, Eq)]
pub enum Event {
    /// A node joins a partition.
    Register {
        node: Name,
        label: Label,
        size: Size,
    },
    /// A node is lost, and its containers end.
    Lost {
        node: Name,
    },
    /// A node goes to another partition, and its containers end.
    Relabel {
        node: Name,
        label: Label,
    },
    /// A node is ready for more, and is served.
    Heartbeat {
        node: Name,
    },
    /// A container ended by itself.
    Exited {
        node: Name,
        id: Id,
    },
    /// An application comes to a leaf, for the label or else the leaf's default one.
    Submit {
        queue: Path,
        app: Name,
        user: Name,
        label: Option<Label>,
        master: Size,
    },
    /// An application asks for so many containers; count 0 takes back what it asked for.
    Ask {
        tenant: Name,
        app: Name,
        label: Label,
        priority: u32,
        count: u32,
        size: Size,
    },
    /// An application gives a container back.
    Release {
        tenant: Name,
        id: Id,
    },
    /// An application is finished, and its containers end.
    Finish {
        tenant: Name,
        app: Name,
    },
    /// A queue and all below it take no new applications.
    Stop {
        queue: Path,
    },
    /// A stopped queue takes applications again.
    Start {
        queue: Path,
    },
    /// What does an application hold on a partition, and ask for?
    Poll {
        tenant: Name,
        app: Name,
        label: Label,
    },
    /// What does a queue use of a partition?
    Usage {
        queue: Path,
        label: Label,
    },
    /// What would be placed on a node?
    Propose {
        node: Name,
    },
    /// A proposal is to be placed.
    Commit {
        proposal: Proposal,
    },
    /// A queue's maximum on a partition is set.
    Maximum {
        queue: Path,
        label: Label,
        maximum: Hundredths,
    },
}

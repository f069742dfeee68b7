//! What an event is answered.

use crate::containers::Placed;
use crate::items::Items;
use crate::proposals::Proposal;
use ynl_resource::{Refusal, Resource, Size};

/// What an application still asks for at one priority.
#[derive(Clone, Copy, PartialEq, Eq)]
pub struct Pending {
    pub priority: u32,
    pub count: u32,
    pub size: Size,
}

/// What an event is answered.
pub enum Reply {
    /// It was done.
    Done,
    /// It was refused, and changed nothing.
    Refused(Refusal),
    /// A heartbeat placed these containers, in this order.
    Placed(Items<Placed>),
    /// What would be placed on the node, if anything.
    Proposed(Option<Proposal>),
    /// A proposal was placed as this container.
    Committed(Placed),
    /// What an application holds on a partition, and what it asks for there.
    Held {
        containers: Items<Placed>,
        asks: Items<Pending>,
    },
    /// What a queue uses, is guaranteed and may use of a partition, and what its masters and its
    /// guests use there.
    Usage {
        used: Resource,
        guaranteed: Resource,
        maximum: Resource,
        masters: Resource,
        guests: Resource,
    },
}

// By hand, so that crates above call it: one that is derived is proved anew in each of them, with all that it holds.
impl Drop for Reply {
    fn drop(self) {
        match self {
            Reply::Done => (),
            Reply::Refused(_) => (),
            Reply::Placed(_) => (),
            Reply::Proposed(_) => (),
            Reply::Committed(_) => (),
            Reply::Held {
                containers: _,
                asks: _,
            } => (),
            Reply::Usage {
                used: _,
                guaranteed: _,
                maximum: _,
                masters: _,
                guests: _,
            } => (),
        }
    }
}

//! The rows of a sight: leaves of which something is wanted on a partition, the queues on the way to each, and its requests.

ghost use Rattle.std.specs.Prelude.{◌≡◌, ◌<◌, length};
ghost use Rattle.ynl_lanes.specs.lane.Rows.{IsUse};
ghost use Rattle.ynl_cluster.specs.uses.Tallies.{IsTotal};

use std::sync::Arc;
use ynl_model::What;
use ynl_resource::{Name, Resource, Size};
use ynl_search::limits::Limits as UserLimits;

/// What a queue uses of the partition, and the most that it may use.
#[derive(Clone, Copy)]
pub(crate) struct Margin {
    pub used: Resource,
    pub maximum: Resource,
    ghost small: { IsTotal used },
}

/// A queue on the way to a leaf. What it is guaranteed is counted by memory.
#[derive(Clone, Copy)]
pub(crate) struct QueueSight {
    pub margin: Margin,
    pub guaranteed: u64,
    pub name: Name,
}

/// What the requests of a leaf are tested against, besides the margins on its way: the limits of its users, and what its
/// masters use and may use.
#[derive(Clone, Copy)]
pub(crate) struct Limits {
    pub users: UserLimits,
    pub masters: Resource,
    pub master_limit: Resource,
    pub no_master: bool,
    ghost small: { IsTotal masters },
}

/// A request of an application, with the application's place in its leaf. The priority is an ask's; of a master it says
/// nothing. No choice reads the name of the user: it is there for what a sight means.
#[derive(Drop)]
pub(crate) struct Wanted {
    pub place: u64,
    pub size: Size,
    pub priority: u32,
    pub app: Name,
    pub user: Name,
}

/// A request, with what its user uses of the leaf.
#[derive(Drop)]
pub(crate) struct Offered {
    pub user_used: Resource,
    pub wanted: Wanted,
    ghost small: { IsUse user_used },
}

/// What is wanted of a leaf on a partition, by kind.
#[derive(Drop)]
pub(crate) struct LeafList {
    pub masters: Vec<Offered>,
    pub asks: Vec<Offered>,
}

/// A leaf of which something is wanted: where the queues on its way stand among those of a sight, from the top-level queue
/// down to the leaf, its limits, and the list of what is wanted.
#[derive(Drop)]
pub(crate) struct LeafSight {
    pub start: usize,
    pub end: usize,
    pub limits: Limits,
    pub list: Arc<LeafList>,
}

/// The leaves of which something is wanted on a partition, with root's margin there, and the queues on all ways. The
/// first queue of each way has the name of the tenant.
#[derive(Drop)]
pub(crate) struct LeafSights {
    pub root: Margin,
    pub queues: Vec<QueueSight>,
    pub leaves: Vec<LeafSight>,
}

impl LeafSights {
    ghost use Rattle.ynl_sights.specs.Rows.{way_of, IsSpan};

    /// The queues on the way to a leaf.
    pub fn way(&self, leaf: &LeafSight) -> &[QueueSight]
        requires { IsSpan self.now.queues.items leaf.now }
        ensures way { result.now ≡ way_of self.now leaf.now }
        ensures some { 0 < length result.now }
    {
        &self.queues[leaf.start..leaf.end]
    }
}

/// A request where it stands in the sight.
#[derive(Clone, Copy)]
pub(crate) struct Held<'a> {
    pub way: &'a [QueueSight],
    pub wanted: &'a Wanted,
    pub what: What,
    ghost some: { 0 < length way.now },
}

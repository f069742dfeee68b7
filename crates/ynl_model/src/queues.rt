//! What is set of queues: by a configuration, and by an operator while the cluster runs.

use ynl_resource::{Hundredths, Label, Name, Path};

/// What a queue is given on a label, as parts of its parent's: the capacity and the maximum.
#[derive(Clone, Copy)]
pub struct LabelCapacity {
    pub label: Name,
    pub capacity: Hundredths,
    pub maximum: Hundredths,
}

/// What is set of a leaf alone, under the names that YARN has for it.
#[derive(Clone, Copy)]
pub struct LeafSettings {
    /// The label of an application that names none.
    pub default_label: Label,
    /// The part of the leaf that each of its users may have, if so many want it.
    pub minimum_user_limit_percent: Hundredths,
    /// How often a user may have what the leaf is guaranteed, in hundredths.
    pub user_limit_factor: u16,
    /// The part of the leaf's maximum that application masters may have.
    pub maximum_am_resource_percent: Hundredths,
    /// How many applications may be live in the leaf.
    pub maximum_applications: u32,
}

/// The present maximum of a queue on a partition.
#[derive(Clone, Copy)]
pub struct MaximumRow {
    pub queue: Path,
    pub label: Label,
    pub share: Hundredths,
}

/// Whether a queue is stopped.
#[derive(Clone, Copy)]
pub struct StopRow {
    pub queue: Path,
    pub stopped: bool,
}

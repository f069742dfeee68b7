//! What queues use.

use ynl_resource::Resource;

/// What a queue uses of a partition: all but guests, of that its masters, how many these are, and
/// guests.
#[derive(Clone, Copy)]
pub struct Use {
    pub used: Resource,
    pub masters: Resource,
    pub master_count: u64,
    pub guests: Resource,
}

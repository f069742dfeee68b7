//! The core of the scheduler: a cluster that takes one event after another and answers each.
#![tactic(auto)]

pub use cluster::Core;
pub use memory::NoMemory;
pub use running::{run, run_from};
pub use runs::{Answer, Run};
pub use sightings::Sighted;

mod applications;
mod cluster;
mod containers;
mod copying;
mod memory;
mod nodes;
mod queues;
mod resuming;
mod running;
mod runs;
mod sightings;

//! The configuration: labels, the tree of queues, and what a queue may use and is guaranteed. A queue
//! is given by its names below root.
#![tactic(auto)]

pub use amounts::{nested_floor, share_of};
pub use building::as_written;
pub use children::Children;
pub use config::Config;
pub use draft::Draft;
pub use grants::Grant;
pub use rows::{Access, QueueRow};
pub use sums::total_capacity;
pub use texts::{above, count_together, is_too_deep};
pub use ways::{is_within, parent_of, step_at};
pub use written::WrittenQueue;

mod access;
mod amounts;
mod buckets;
mod building;
mod checks;
mod children;
mod config;
mod draft;
mod grants;
mod index;
mod indexed;
pub mod labels;
mod rows;
mod sums;
mod texts;
mod ways;
mod written;

//! What a cluster holds, under numbers: its partitions, nodes, applications and containers, and what they mean in the model.
#![tactic(auto)]

pub use inventory::Inventory;
pub use partition::Placement;
pub use submission::NewSubmission;

mod changes;
mod inventory;
pub mod layout;
mod partition;
mod placed;
mod places;
mod start;
mod submission;

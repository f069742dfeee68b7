//! What an event is answered: the first reason for a refusal, or what is told of a cluster by numbers, as the model's replies.
#![tactic(auto)]

pub use asking::pending;
pub use listing::{containers, node_at, nodes, own_containers, placed_at};
pub use paths::path_of;
pub use polling::{held, usage};

pub mod admission;
mod asking;
mod listing;
mod paths;
mod polling;

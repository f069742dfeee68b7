//! Workers of a live scheduler, each in a thread of its own: they go over nodes, plan what would be placed
//! there, and commit what they have planned.
//!
//! A worker has the lock while it copies what the choice reads, and while it commits. Between the two it has no
//! lock, and other workers go on, so a commit can be refused: the cluster has changed since. What each worker
//! did stands in its receipts. That threads run at the same time no contract can say.
#![tactic(auto)]

pub use gates::{Gate, Go};
pub use rounds::{Unrun, run_round};
pub use working::{End, WorkerEnd};
pub use ynl_sights::Sight;

mod gates;
mod rounds;
pub mod session;
mod working;

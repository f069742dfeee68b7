//! A cluster under numbers: what it holds, what its queues use, what is set of them, and who waits
//! in its lanes.
#![tactic(auto)]

pub use cluster::Cluster;

mod cluster;
pub mod ledger;
pub mod requests;
pub mod seating;
pub mod uses;
mod ways;

//! A cluster's state as lines, made of its rows, and a cluster made of such lines.
#![tactic(auto)]

pub use restoring::Restoring;
pub use saving::Saving;

mod restoring;
mod saving;

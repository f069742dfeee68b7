//! The rows of a cluster under numbers: nodes, users, applications, submissions and containers.
#![tactic(auto)]

pub mod apps;
pub mod containers;
pub mod nodes;
pub mod submissions;
pub mod users;

//! What waits in the leaves: the applications that may use a partition, in lanes, and the least that is wanted there.
#![tactic(auto)]

pub mod firsts;
pub mod lane;
pub mod lows;
pub mod table;

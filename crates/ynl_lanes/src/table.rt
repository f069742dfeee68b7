//! The lanes of all leaves on all partitions.

pub use lanes::Lanes;

mod lanes;

//! Labels of the cluster's partitions.

pub use labels::Labels;

mod faults;
mod labels;

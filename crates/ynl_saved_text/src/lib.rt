//! The lines of a saved state, as text: each is a JSON object, and is written in the compact form. A text here is without
//! the newline that ends its line.
#![tactic(auto)]

pub use faults::{BadState, StateFault};
pub use kinds::StateKind;
pub use read::StateReader;
pub use write::put_state_line;

mod compact;
mod faults;
mod kinds;
mod read;
mod read_applications;
mod read_containers;
mod read_partitions;
mod read_queues;
mod write;
mod write_applications;
mod write_containers;
mod write_parts;

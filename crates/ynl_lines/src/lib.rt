//! Lines of text: events, and events with their replies, are read from them, and replies, faults, what
//! an audit found, events, and events with their replies are written to them.
//! Each is a JSON object. A text here is without the newline that ends its line.
#![tactic(auto)]

pub use compact::heartbeat_of;
pub use faults::{BadLine, InputFault, JournalFault, LineFault};
pub use read::{EventReader, read_event};
pub use read_lines::{LineReader, read_line};
pub use write::{put_line, write_audit, write_event, write_fault, write_line, write_reply};
pub use write_replies::{put_placed, put_reply};

mod compact;
mod compact_events;
mod compact_replies;
mod faults;
mod read;
mod read_applications;
mod read_containers;
mod read_lines;
mod read_nodes;
mod read_proposals;
mod read_queues;
mod read_replies;
mod write;
mod write_containers;
mod write_events;
mod write_proposals;
mod write_replies;

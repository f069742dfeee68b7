//! Events and replies as bytes, for lists of many: in memory an event takes 670 bytes, since names and paths have room for the
//! longest, and as bytes mostly less than 60.
//!
//! What is kept so is private to a process: the bytes are no format to hand on.
#![tactic(auto)]

pub use entries::{Entries, any_entry};
pub use event_reading::any_event;
pub use events::Events;

mod cursor;
mod entries;
mod event_reading;
mod event_writing;
mod events;
mod kept;
mod pieces;
mod replies;
mod writing;

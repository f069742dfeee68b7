//! Entries of a journal.

use crate::events::Event;
use crate::replies::Reply;

/// An event, and its reply where it is written down.
#[derive(Drop)]
pub struct Entry {
    pub event: Event,
    pub reply: Option<Reply>,
}

//! The text of why an application waits, as lines of JSON or in sentences.
#![tactic(auto)]

pub use plain::plain_text;
pub use telling::told_text;

mod objects;
mod pieces;
mod plain;
mod proposals;
mod queues;
mod reasons;
mod sentences;
mod telling;

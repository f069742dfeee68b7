//! The journal of a scheduler: each event with the reply that it got, in order, and its audit.
#![tactic(auto)]

pub use auditing::{AuditFault, audit, fits};
pub use comparing::is_same_reply;
pub use journal::Book;
pub use replaying::{replay, replay_history};
pub use start::Start;
pub use ynl_model::Entry;

mod auditing;
mod comparing;
pub mod histories;
mod journal;
mod replaying;
mod start;

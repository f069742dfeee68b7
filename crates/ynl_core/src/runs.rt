//! What a run answers.

use crate::cluster::Core;
use ynl_model::{Items, Reply};

/// What one event of a run is answered.
#[derive(Drop)]
pub enum Answer {
    Replied(Reply),
    /// Memory was refused, and the event changed nothing.
    NoMemory,
}

/// A run over a list of events: the answers, one to each, and the cluster after them.
#[derive(Drop)]
pub struct Run {
    pub answers: Items<Answer>,
    pub core: Core,
}

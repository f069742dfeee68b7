//! The words of the scheduler: names, labels, paths of queues, ids of containers, amounts, and the
//! reasons for which an event is refused. Each is read from its text exactly, and printed back.
#![tactic(auto)]

pub use amounts::{Hundredths, Resource, Size};
pub use ids::Id;
pub use labels::Label;
pub use names::{BadName, Name};
pub use paths::{Path, PathFault, same_path};
pub use ranges::{
    MOST_ASKS, MOST_CHILDREN, MOST_CLOCK, MOST_COUNT, MOST_LABELS, MOST_MEMORY, MOST_NAMES,
    MOST_NODES, MOST_QUEUES, MOST_VCORES, WHOLE,
};
pub use refusals::Refusal;
pub use seeds::HashSeed;

mod amounts;
mod cuts;
mod ids;
mod labels;
mod names;
mod paths;
mod ranges;
mod refusal_words;
mod refusals;
mod seeds;

//! The words of the command line: which words there are, and what they ask for.
#![tactic(auto)]

pub use live_words::Workers;
pub use words::{Job, Kind, Question, SequentialKind, WordsFault, parse_words};

mod audit_words;
mod check_words;
mod explain_words;
mod live_words;
mod options;
mod save_words;
mod words;

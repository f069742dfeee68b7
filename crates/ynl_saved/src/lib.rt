//! What the lines of a saved state tell, whatever their text, which they are, and what is promised of them.
#![tactic(auto)]

pub use laws::{
    asks_stay_within, restored_asks_stay_within, restored_states_are_told, restored_states_work,
    states_are_told,
};
pub use lines::StateLine;
pub use sink::LineSink;

mod laws;
mod lines;
mod sink;

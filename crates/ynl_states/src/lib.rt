//! The state of a cluster as text: written whole, or told line by line once it was measured; and a cluster that goes on
//! from such a text.
#![tactic(auto)]

pub use measure::{StateSize, measure_state};
pub use restoring::read_state;
pub use telling::tell_state;
pub use text::add_line;
pub use writing::write_state;

mod lines;
mod measure;
mod reading;
mod restoring;
mod telling;
mod text;
mod writing;

//! What a configuration says, as text: the tree of an accepted one with what each queue is given, or the fault of
//! another with its place.
#![tactic(auto)]

pub use checking::{Checked, Form, Verdict, check};
pub use style::{Style, Widths};

mod checking;
mod columns;
mod faults;
mod objects;
mod pieces;
mod sentences;
mod shares;
mod style;
mod tree;

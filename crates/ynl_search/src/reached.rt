//! Queues that a search has come to.

use crate::place::Place;

/// A queue that a search has come to, and the numbers of those just below it, in the order of their
/// names.
#[derive(Clone, Copy)]
pub struct Reached<'a> {
    pub place: Place,
    pub children: &'a [usize],
}

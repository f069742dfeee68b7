//! Views.

use ynl_model::Event;

/// What a tenant's partition sees of a list of events: events, and the place of each in the list.
#[derive(Drop)]
pub struct View {
    pub events: Vec<Event>,
    pub places: Vec<u64>,
}

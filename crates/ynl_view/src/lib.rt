//! What a tenant's partition sees of a list of events, the cluster of that tenant alone, and the evidence of it in a journal.
#![tactic(auto)]

pub use exclusivity::sole;
pub use picking::{copy_reply, pick};
pub use restriction::restrict;
pub use track::Track;
pub use viewing::{see, see_into, view};
pub use views::View;

pub mod evidence;
mod exclusivity;
pub mod nodes;
mod picking;
mod restriction;
mod sights;
mod track;
mod viewing;
mod views;

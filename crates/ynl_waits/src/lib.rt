//! Why an application waits: its requests, the reasons that are told of each, and, in `specs/`, the definitions of them
//! over those of the model.
#![tactic(auto)]

pub use choices::{Choice, Choices};
pub use grounds::{Ground, Spot, add_open_spots, first_by_name, has_nodes, spots_on};
pub use listing::{add_rooms, add_where, places};
pub use steps::Step;
pub use telling::{add, add_clock, add_next, add_room, add_turn};
pub use tests::{fits_on_top, is_for, is_ready};
pub use waits::{Applicant, Explained, Reason, Request, Turn, Wait};

mod choices;
mod grounds;
mod listing;
mod steps;
mod telling;
mod tests;
mod waits;

//! A cluster for callers who hold neither events nor replies: it takes a line at a time, and the text of what the last
//! call came to is copied out by a call of its own. So an event is not lost where its text finds no room.

pub use desk::Desk;
pub use faults::DeskFault;
pub use seeding::seed_of;
pub use ynl_resource::HashSeed;

mod copying;
mod desk;
mod faults;
mod outcome;
mod seeding;
mod taking;

//! The live applications under numbers, with what they ask for and the chains of their containers.

pub use app::{AppRow, NewApp, Tickets};
pub use apps::Apps;
pub use asks::{Ask, Asks};
pub use chains::Chains;

mod app;
mod apps;
mod asks;
mod chains;

//! The configuration of a cluster, read from its text: tables of TOML, in version 1 or 2.
#![tactic(auto)]

pub use built_in_text::{BUILT_IN, built_in, built_in_text_is_read};
pub use check::check_config;
pub use config::read_config;
pub use faults::ConfigFault;
pub use law::{first_fault_is_told, meaning_is_accepted};
pub use places::{Misplaced, Place, RowKind, ToldValue};

mod built_in_text;
mod check;
mod config;
mod faults;
mod faulty_keys;
mod fields;
mod keys;
mod label_rows;
mod law;
mod lent;
mod listed;
mod places;
mod queues;
mod row_places;
mod table_places;
mod telling;
mod together;
mod tree_places;
mod values;
mod written;

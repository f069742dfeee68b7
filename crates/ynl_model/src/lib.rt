//! The model of the cluster: what can happen to it, what each event is answered, and, in `specs/`,
//! every definition of what the scheduler does.
#![tactic(auto)]

pub use applications::AskRow;
pub use containers::Placed;
pub use entries::Entry;
pub use events::Event;
pub use faults::{LabelFault, TreeFault};
pub use items::Items;
pub use labels::LabelRow;
pub use nodes::{Node, Tracked};
pub use proposals::{Proposal, What};
pub use queues::{LabelCapacity, LeafSettings, MaximumRow, StopRow};
pub use replies::{Pending, Reply};
pub use uses::Use;

mod applications;
mod containers;
mod entries;
mod events;
mod faults;
mod items;
mod labels;
mod nodes;
mod proposals;
mod queues;
mod replies;
mod uses;

//! For which reason an event is refused, or else the numbers that its change takes. Names become
//! numbers here, and nowhere below.

pub use applications::{Asking, Inquiry, app_named, ask, finish, is_too_large, poll};
pub use containers::{Held, exited, release};
pub use nodes::{Moved, lost, node_named, placing, register, relabel};
pub use partitions::partition_of;
pub use queues::{CellNumbers, maximum, queue_of, set_stop, usage};
pub use submissions::{SubmissionNumbers, has_most_apps, submit, tenant_of_leaf};

mod applications;
mod containers;
mod nodes;
mod partitions;
mod queues;
mod submissions;

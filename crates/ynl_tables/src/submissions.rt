//! The applications that were submitted to a tenant, by their names and in the order of submission.

pub use submissions::{Submission, Submissions};

mod key;
mod submissions;

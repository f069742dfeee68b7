//! Evidence: what a tenant is handed of a journal, and its audit, which needs nothing but the evidence and
//! the configuration.

pub use auditing::audit_evidence;
pub use flaws::{EvidenceFault, Flaw};
pub use gathering::evidence;
pub use trial::Trial;

mod auditing;
mod flaws;
mod gathering;
pub mod laws;
mod trial;

//! The commands that need one thread, over any reader and writer: each reads the lines of an input and writes what
//! comes of them, and says how that ended.
#![tactic(auto)]

pub use audit::audit_lines;
pub use evidence::{Tenancy, evidence_lines};
pub use evidence_audit::audit_evidence_lines;
pub use explaining::explain_lines;
pub use run::{Summary, ToolFault, report, run_lines};
pub use saving::save_lines;
pub use script_in::{Script, read_script};
pub use tenant::tenant_lines;

mod audit;
pub mod audit_laws;
mod clusters;
pub mod cut_laws;
mod evidence;
mod evidence_audit;
pub mod evidence_laws;
mod explaining;
pub mod lines_in;
pub mod lines_out;
mod run;
mod saving;
mod script_in;
mod state_out;
mod tenant;

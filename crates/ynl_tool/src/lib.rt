//! The program's jobs: the commands with their configuration, and the exit status that says how each ended.
#![tactic(auto)]

pub use checking::check_text;
pub use config_text::{fault_of, read_state_text, read_text};
pub use jobs::{JobTexts, execute_check, execute_live, execute_sequential, execute_unread, tell};
pub use live::live_lines;
pub use ynl_check::{Form, Verdict};
pub use ynl_commands::{
    Script, Summary, Tenancy, ToolFault, audit_evidence_lines, audit_laws, audit_lines, cut_laws,
    evidence_laws, evidence_lines, explain_lines, read_script, run_lines, save_lines, tenant_lines,
};
pub use ynl_config::BUILT_IN;
pub use ynl_resource::HashSeed;
pub use ynl_words::{Job, Kind, Question, SequentialKind, WordsFault, Workers, parse_words};

mod checking;
mod config_text;
mod jobs;
mod live;

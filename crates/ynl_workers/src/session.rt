//! A session of a live scheduler: the events of a script, and rounds of workers over the nodes that these leave.
//!
//! What threads do in a session no contract can say before it has ended. Then the journal tells: it is a
//! history of the cluster, the script stands at its front, and behind it each node of the script was asked
//! about once a round, and just what was answered was committed. How many workers did it the journal does
//! not tell, since what one does is one of the orders that more can come to.

pub use crate::{Gate, Go, Sight};
pub use sessions::{SessionFault, run_session};

mod dealing;
mod handing;
mod sessions;

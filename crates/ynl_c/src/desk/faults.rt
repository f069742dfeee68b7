//! Why a call on a desk is not done.

use thiserror::Error;
use ynl_config::ConfigFault;
use ynl_lines::LineFault;

/// Why a call on a desk is not done. The cluster is as it was then.
#[derive(Clone, Copy, Debug, PartialEq, Eq, Error)]
pub enum DeskFault {
    /// There is no cluster.
    #[error("closed")]
    Closed,
    /// Memory was refused.
    #[error("out of memory")]
    NoMemory,
    /// The text is no configuration.
    #[error("no configuration: {0}")]
    Config(ConfigFault),
    /// The line is no event.
    #[error("no event: {0}")]
    Line(LineFault),
    /// The text is no label.
    #[error("no label")]
    Label,
    /// The block is too small for the text.
    #[error("no room")]
    NoRoom,
}

//! Why evidence is not right.

use thiserror::Error;
use ynl_core::NoMemory;

/// What is wrong with an entry, given those before it. The first that holds is told.
#[derive(Clone, Copy, Debug, PartialEq, Eq, Error)]
pub enum Flaw {
    /// Its place does not come behind theirs, or its event is not kept as it is by the tenant's view.
    #[error("not the next of the tenant's evidence")]
    NotKept,
    /// Its reply is not that of the cluster that holds the tenant alone.
    #[error("another reply than the tenant's cluster")]
    Differs,
}

/// Why an audit of evidence does not pass.
#[derive(Clone, Copy, Debug, PartialEq, Eq, Error)]
pub enum EvidenceFault {
    /// The entry of this number, counted from 1, is the first with a flaw.
    #[error("entry {0}: {1}")]
    Flawed(u64, Flaw),
    /// Memory was refused before the end was reached.
    #[error("out of memory")]
    NoMemory,
}

impl From<NoMemory> for EvidenceFault {
    ghost use Rattle.std.specs.Prelude.{◌≡◌};
    ghost use Rattle.ynl_view.specs.declared.evidence.flaws.EvidenceFault.TheVariants.{NoMemory};

    ghost from_gives = { λ _ e. e ≡ NoMemory };

    fn from(_error: NoMemory) -> EvidenceFault {
        EvidenceFault::NoMemory
    }
}

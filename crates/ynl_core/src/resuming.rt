//! A cluster that goes on from a saved state.

ghost use Rattle.std.specs.Prelude.{◌≡◌, IfOk};
ghost use Rattle.ynl_saved.specs.Restoring.{Restored};
ghost use Rattle.ynl_snapshots.specs.restoring.Telling.{Tells};

use crate::cluster::Core;
use crate::memory::NoMemory;
use std::alloc::Global;
use ynl_snapshots::Restoring;

impl Core {
    /// The cluster that the lines of a saved state told. It goes on as the one of that state would. `Err` only if
    /// memory is refused.
    pub fn resume(alloc: Global, told: Restoring) -> Result<Core, NoMemory>
        requires { (r : Restored) × Tells told r }
        ensures { IfOk result (λ core. (r : Restored) → Tells told r → core
            ≡ record { config = told.cluster.config; state = r.state }) }
    {
        Core::of(alloc, told.into_cluster())
    }
}

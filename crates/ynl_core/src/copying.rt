//! A second cluster of the same state.

ghost use Rattle.std.specs.Prelude.{◌≡◌, IfOk, IsTrue};
ghost use Rattle.ynl_model.specs.Accepted.{is_accepted};
ghost use Rattle.ynl_saved.specs.Restoring.{nothing_restored};
ghost use Rattle.ynl_snapshots.specs.restoring.Telling.{Tells};

use crate::cluster::Core;
use crate::memory::NoMemory;
use std::alloc::{AllocError, Global};
use std::marker::Model;
use ynl_queues::Config;
use ynl_saved::{LineSink, StateLine};
use ynl_snapshots::Restoring;

/// Why no line more is taken.
#[derive(Clone, Copy)]
enum CopyFault {
    /// The line does not go with those before it.
    Unsound,
    /// Memory was refused, or the lines cannot be counted.
    NoMemory,
}

impl From<AllocError> for CopyFault {
    ghost use Rattle.std.specs.Prelude.{◌≡◌};
    ghost use Rattle.ynl_core.specs.declared.copying.CopyFault.TheVariants.{NoMemory};

    ghost from_gives = { λ _ e. e ≡ NoMemory };

    fn from(_error: AllocError) -> CopyFault {
        CopyFault::NoMemory
    }
}

/// A cluster that the lines of another one tell, and how many lines there were.
#[derive(Drop)]
struct Copying {
    told: Restoring,
    lines: u64,
    /// Whether all lines so far were taken.
    is_whole: bool,
}

impl Model for Copying {
    ghost use Rattle.ynl_snapshots.specs.restoring.Telling.{Telling};

    ghost Value = { Telling };

    ghost view = { λ a. a.told };

    ghost use Rattle.ynl_core.specs.CopyingFields.{IsWhole};

    ghost invariant = { IsWhole };
}

impl Copying {
    /// No line yet.
    fn new(alloc: Global, config: Config) -> Result<Copying, NoMemory>
        requires { IsTrue (is_accepted config) }
        ensures told { IfOk result (λ copying. Tells copying (nothing_restored config)) }
        ensures config { IfOk result (λ copying. copying.cluster.config ≡ config) }
    {
        Ok(Copying {
            told: Restoring::new(alloc, config)?,
            lines: 0,
            is_whole: true,
        })
    }

    /// The cluster that the lines told.
    fn into_told(self) -> Restoring
        ensures { result ≡ self }
    {
        let Copying {
            told,
            lines: _,
            is_whole: _,
        } = self;
        told
    }
}

impl LineSink for Copying {
    type Fault = CopyFault;

    ghost use Rattle.ynl_core.specs.Copying.{Follows};

    ghost gives = { Follows };

    fn take(&mut self, line: &StateLine) -> Result<(), CopyFault> {
        if !self.is_whole || self.lines == u64::MAX {
            return Err(CopyFault::NoMemory);
        }
        self.is_whole = false;
        let taken = self.told.take(line)?;
        if !taken {
            return Err(CopyFault::Unsound);
        }
        self.lines += 1;
        self.is_whole = true;
        Ok(())
    }
}

impl Core {
    /// A second cluster of the same configuration and state, made by telling the lines of the state. `Err` only
    /// if memory is refused.
    pub fn copy(&self) -> Result<Core, NoMemory>
        requires { IsTrue (is_accepted self.now.config) }
        ensures { IfOk result (λ core. core ≡ self.now) }
    {
        let config = self.config().copy(self.alloc)?;
        let mut copying = Copying::new(self.alloc, config)?;
        match self.saving().tell(&mut copying) {
            Ok(()) => Core::resume(self.alloc, copying.into_told()),
            Err(CopyFault::NoMemory) => Err(NoMemory),
            Err(CopyFault::Unsound) => unreachable!(),
        }
    }
}

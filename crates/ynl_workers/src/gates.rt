//! Gates: what a worker asks and tells between its calls.

ghost use Rattle.std.specs.Prelude.{◌≡◌};

use ynl_sights::Sight;

/// Whether a worker goes on.
#[derive(Clone, Copy, Debug, PartialEq, Eq)]
pub enum Go {
    /// It commits what it was answered.
    On,
    /// It ends here, without the commit.
    Halt,
}

/// Where each worker stops by on its way, at no time with the lock. Workers, and the turns of each, are
/// counted from 0; a turn is one node of the worker's list.
pub trait Gate {
    /// A free gate lets each worker go on.
    ghost is_free: { Self → Type 0 };

    /// A worker has a copy of what the choice on its node reads, and is about to make the choice from it.
    fn before_plan(&self, worker: u64, turn: u64, sight: &Sight);

    /// A worker was answered a proposal, and has not committed it yet.
    fn before_commit(&self, worker: u64, turn: u64) -> Go
        ensures { is_free self.now → result ≡ Go.On };

    /// A worker's commit was entered, whatever it was answered.
    fn after_commit(&self, worker: u64, turn: u64);
}

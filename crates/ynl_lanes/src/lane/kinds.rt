//! The two kinds of requests: masters and asks.

ghost use Rattle.std.specs.Prelude.{◌≡◌};
ghost use Rattle.ynl_lanes.specs.lane.Kinds.{of_kind, with_kind};

/// Whether a request is for an application's master, or an ask of one that runs.
#[derive(Clone, Copy, PartialEq, Eq)]
pub enum Kind {
    Master,
    Ask,
}

/// Something of each kind.
#[derive(Clone, Copy)]
pub struct Both<T> {
    pub master: T,
    pub ask: T,
}

impl<T: Copy> Both<T> {
    /// What there is of a kind.
    pub fn of(&self, kind: Kind) -> T
        ensures { result ≡ of_kind kind self.now }
    {
        match kind {
            Kind::Master => self.master,
            Kind::Ask => self.ask,
        }
    }

    /// The same with something else of a kind.
    pub fn with(self, kind: Kind, value: T) -> Both<T>
        ensures { result ≡ with_kind kind value self }
    {
        match kind {
            Kind::Master => Both {
                master: value,
                ask: self.ask,
            },
            Kind::Ask => Both {
                master: self.master,
                ask: value,
            },
        }
    }
}

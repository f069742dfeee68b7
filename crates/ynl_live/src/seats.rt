//! Seats.

use std::marker::Model;

/// What one caller knows of the journal: how many calls it made, and behind which place its next one
/// stands.
#[derive(Drop)]
pub struct Seat {
    calls: u64,
    front: u64,
}

impl Model for Seat {
    ghost use Rattle.std.specs.Prelude.{◌≤◌};
    ghost use Rattle.ynl_live.specs.Seats.{Standing};

    ghost Value = { Standing };

    ghost view = { λ seat. record { calls = seat.calls; front = seat.front } };

    ghost invariant = { λ seat. seat.calls ≤ seat.front };
}

impl Seat {
    ghost use Rattle.std.specs.Prelude.{◌≡◌, ◌+◌, ◌≤◌, ◌<◌, ◌^◌};
    ghost use Rattle.ynl_live.specs.Seats.{passed};

    /// The seat of the first caller.
    pub(crate) fn first() -> Seat
        ensures { result ≡ record { calls = 0; front = 0 } }
    {
        Seat { calls: 0, front: 0 }
    }

    /// A seat for one caller more, which has made no call, and stands where this one does.
    pub fn split(&self) -> Seat
        ensures { result ≡ record { calls = 0; front = self.now.front } }
    {
        Seat {
            calls: 0,
            front: self.front,
        }
    }

    /// How many calls were answered on this seat.
    pub fn calls(&self) -> u64
        ensures { result ≡ self.now.calls }
    {
        self.calls
    }

    /// The least place that its next call can have: the one behind its last call's.
    pub fn front(&self) -> u64
        ensures { result ≡ self.now.front }
    {
        self.front
    }

    /// Moves behind a call at this place.
    pub(crate) fn pass(&mut self, place: u64)
        requires later { self.old.front ≤ place }
        requires counted { place + 1 < 2 ^ 64 }
        ensures { self.new ≡ passed self.old place }
    {
        self.calls += 1;
        self.front = place + 1;
    }
}

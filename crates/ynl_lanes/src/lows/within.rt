//! The test with which waiting requests are searched.

ghost use Rattle.ynl_lanes.specs.lows.Tests.{IsWithin};
ghost use Rattle.ynl_lanes.specs.lows.TestLemmas.{within-below};

use crate::firsts::Test;
use crate::lows::low::Low;
use ynl_resource::Resource;

/// Whether the least of some sizes fits in a room.
#[derive(Clone, Copy)]
pub struct Within {
    pub room: Resource,
}

impl Test<Low> for Within {
    ghost passes = { IsWithin };

    ghost passes_below = { within-below };

    fn passes(&self, value: &Low) -> bool {
        value.fits(&self.room)
    }
}

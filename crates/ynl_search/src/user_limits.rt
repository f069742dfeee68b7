//! The test with which a search passes over users whose requests keep no limit.

ghost use Rattle.ynl_search.specs.limits.Shares.{IsAsk};

use crate::limits::Limits;
use ynl_lanes::firsts::Test;
use ynl_lanes::lows::{UserLow, UserTest};
use ynl_resource::Resource;

/// A room for requests, and the limits of a leaf's users. A user passes where the least that waits of the user fits in
/// the room, and the user keeps the limit with it. A larger request raises the limit by no more than it is larger, so
/// where the least does not keep the limit no request of the user does.
#[derive(Clone, Copy)]
pub(crate) struct UserLimits {
    pub(crate) room: Resource,
    pub(crate) limits: Limits,
    ghost ask: { IsAsk room },
}

impl Test<UserLow> for UserLimits {
    ghost use Rattle.ynl_search.specs.UserTests.{AreWithinLimits};
    ghost use Rattle.ynl_search.specs.limits.Raised.{within_limits-below};

    ghost passes = { AreWithinLimits };

    ghost passes_below = { within_limits-below };

    fn passes(&self, value: &UserLow) -> bool {
        let low = value.low.amount();
        low.fits_in(self.room) && self.limits.keeps_with(&value.used, &low)
    }
}

impl UserTest for UserLimits {
    ghost use Rattle.ynl_search.specs.UserTests.{IsWithinLimits};

    ghost may = { IsWithinLimits };

    ghost passes_may = { λ test used size may. may };

    fn room(&self, used: Resource) -> Option<Resource> {
        self.limits.left(&used, &self.room)
    }
}

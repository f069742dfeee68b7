//! The least of what a user's requests that wait need, and what the user uses.

ghost use Rattle.std.specs.Prelude.{◌≡◌, ◌↔◌, IsTrue};
ghost use Rattle.ynl_resource.specs.Amounts.{smaller_of};
ghost use Rattle.ynl_lanes.specs.lows.Users.{IsUserLow, IsUserBelow, IsBelowRequests, no_user};
ghost use Rattle.ynl_lanes.specs.lows.UserOrder.{user_below-refl, user_below-trans, user_below-no_user};

use crate::firsts::Least;
use crate::lows::low::Low;
use ynl_resource::Resource;

/// Of one user, or the least of several.
#[derive(Clone, Copy, PartialEq, Eq)]
pub struct UserLow {
    /// At or below the size of each request that waits.
    pub low: Low,
    /// At or below what each of the users uses.
    pub used: Resource,
}

impl UserLow {
    /// Of no user: above all others.
    pub const NONE: UserLow = UserLow {
        low: Low::NONE,
        used: Resource {
            memory: u64::MAX,
            vcores: u64::MAX,
        },
    };

    /// Of a user who uses so much, with the least of the user's requests that wait.
    pub fn of(low: Low, used: Resource) -> UserLow
        ensures low { result.low ≡ low }
        ensures used { result.used ≡ used }
        ensures requests { IsBelowRequests result used low }
    {
        UserLow { low, used }
    }
}

impl Least for UserLow {
    ghost below = { IsUserBelow };

    ghost fits = { IsUserLow };

    ghost none = { no_user };

    ghost reflexive = { user_below-refl };

    ghost transitive = { user_below-trans };

    ghost none_above = { user_below-no_user };

    fn none() -> UserLow {
        UserLow::NONE
    }

    fn least(self, other: UserLow) -> UserLow
        ensures low { result.low ≡ smaller_of self.low other.low }
        ensures used { result.used ≡ smaller_of self.used other.used }
    {
        UserLow {
            low: self.low.least(other.low),
            used: Resource {
                memory: self.used.memory.min(other.used.memory),
                vcores: self.used.vcores.min(other.used.vcores),
            },
        }
    }

    fn same(self, other: UserLow) -> bool
        ensures { IsTrue result ↔ self ≡ other }
    {
        self == other
    }
}

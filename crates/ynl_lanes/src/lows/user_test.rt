//! The tests with which a search passes over users.

ghost use Rattle.std.specs.Prelude.{IfSome, IfNone};
ghost use Rattle.ynl_lanes.specs.lows.Lows.{IsBelow};

use crate::firsts::Test;
use crate::lows::users::UserLow;
use ynl_resource::Resource;

/// A test of users by what they use and what of theirs waits. A user that may have a request passes. One that passes
/// may still be given nothing, which only costs a search time.
pub trait UserTest: Test<UserLow> {
    ghost use Rattle.ynl_resource.specs.declared.amounts.Resource.{Resource};

    // Whether a user that uses so much may have a request of a size.
    ghost may: { Self → Resource → Resource → Type 0 };

    /// How large a request of a user that uses so much may be, or nothing if the user may have none. It may be larger
    /// than all that the user may have: the smaller it is, the faster is a search.
    fn room(&self, used: Resource) -> Option<Resource>
        ensures some { IfSome result (λ room. (size : Resource) → may self.now used size → IsBelow size room) }
        ensures none { IfNone result ((size : Resource) → ¬ (may self.now used size)) };

    // A user that may have a request passes with it.
    ghost passes_may: { (test : Self) (used size : Resource) → may test used size
        → Self.passes test (record { low = size; used = used }) };
}

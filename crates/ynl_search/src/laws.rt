//! What is found in a leaf is the model's first request there.

ghost use Rattle.ynl_search.specs.Guests.{FirstGuestIsModel, IsGuestAsked};
ghost use Rattle.ynl_search.specs.Laws.{FirstOwnIsModel, IsOwnWanted};
ghost use Rattle.ynl_search.specs.Leaves.{TestsTell};

/// The tests of a leaf tell of each of its requests whether it is eligible on a node.
pub fn tests_tell_eligible_requests()
    ensures { TestsTell }
{}

/// What is found in the lane of a leaf is the first of the leaf's requests that are eligible on the
/// node.
pub fn first_own_is_the_models()
    ensures { FirstOwnIsModel }
{}

/// What is found in the lane of a leaf on DEFAULT for a guest is the first of the leaf's asks for
/// which the node has room.
pub fn first_guest_is_the_models()
    ensures { FirstGuestIsModel }
{}

/// An application wants what is found in the lane of its leaf.
pub fn first_own_is_wanted()
    ensures { IsOwnWanted }
{}

/// An application asks for what is found for a guest.
pub fn first_guest_is_asked_for()
    ensures { IsGuestAsked }
{}

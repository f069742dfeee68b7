//! What holds of every state.

ghost use Rattle.ynl_laws.specs.Bounded.{IsAlwaysBounded};
ghost use Rattle.ynl_laws.specs.Refused.{RefusalChangesNothing};
ghost use Rattle.ynl_laws.specs.Replies.{AreHeartbeatsBounded};
ghost use Rattle.ynl_model.specs.Promises.{IsAlwaysSound, HasOneReplyEach};

/// Whatever events come, clocks and stamps are within their limits, nodes differ, the ids of the
/// containers on a partition rise in the order in which they are listed, so that no two are the same,
/// containers stand on nodes that are there, and no node is overfull.
pub fn every_state_is_sound()
    ensures { IsAlwaysSound }
{}

/// Each event gets one reply.
pub fn each_event_has_one_reply()
    ensures { HasOneReplyEach }
{}

/// With events in range, the total of each partition is at most 2^48 MB and 2^32 vcores, and what stands
/// there fits in it: all containers, and what a queue, a user, masters and guests use.
pub fn use_and_totals_are_bounded()
    ensures { IsAlwaysBounded }
{}

/// An event that is refused leaves the state as it is, and the refusal is the reply.
pub fn refusals_change_nothing()
    ensures { RefusalChangesNothing }
{}

/// A heartbeat places so many containers at most as the configuration says.
pub fn heartbeats_are_bounded()
    ensures { AreHeartbeatsBounded }
{}

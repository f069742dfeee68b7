//! The maxima of queues.

ghost use Rattle.ynl_model.specs.Promises.{IsNeverOver, IsOnlyLoweredInto};

/// Whatever events come, an event after which a queue uses more of a partition than before leaves it
/// within its maximum there.
pub fn no_allocation_exceeds_a_maximum()
    ensures { IsNeverOver }
{}

/// Whatever events come, an event that takes a queue from at most its maximum on a partition to above it
/// is not refused, and by it a node that stands there is lost or goes to another label, or the maximum
/// there of the queue, or of one above it, is set to less than it was.
pub fn maxima_are_only_lowered_into()
    ensures { IsOnlyLoweredInto }
{}

//! Isolation of tenants.

ghost use Rattle.ynl_model.specs.Promises.{IsIsolated};

/// A tenant that alone may use an exclusive partition of an accepted configuration is as alone there.
/// Whatever events come, it gets the replies, containers, nodes and clock of a cluster that holds its
/// queues alone and is given only what bears on them; and no allocation takes a queue above its maximum.
pub fn tenants_are_isolated()
    ensures { IsIsolated }
{}

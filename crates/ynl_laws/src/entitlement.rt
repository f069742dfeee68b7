//! Which containers and applications are where.

ghost use Rattle.ynl_laws.specs.Entitled.{AreAppsInTheirLeaves, MayLeavesUseHomes, AreAsksForHome, AreAllEntitled};
ghost use Rattle.ynl_model.specs.Promises.{AreMastersAtHome};

/// In each state a master stands on the home label of its application, which is live.
pub fn masters_stand_at_home()
    ensures { AreMastersAtHome }
{}

/// In each state each live application stands in the row of its leaf.
pub fn applications_stand_in_their_leaves()
    ensures { AreAppsInTheirLeaves }
{}

/// In each state the leaf of each live application may use its home label.
pub fn leaves_may_use_homes()
    ensures { MayLeavesUseHomes }
{}

/// In each state what an application asks for is for its home label or for the DEFAULT partition.
pub fn asks_are_for_home()
    ensures { AreAsksForHome }
{}

/// In each state a guest is where guests may come, and any other container where its leaf may use the
/// partition.
pub fn containers_are_entitled()
    ensures { AreAllEntitled }
{}

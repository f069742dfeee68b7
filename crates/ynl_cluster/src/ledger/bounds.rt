//! Which changes of the rows keep them in bounds: each law the contract of a public function.

ghost use Rattle.ynl_cluster.specs.ledger.Bounded.{PlacingKeepsBounds, EndingKeepsBounds};
ghost use Rattle.ynl_cluster.specs.ledger.Bounded.{DroppingKeepsBounds, JoiningKeepsBounds};
ghost use Rattle.ynl_cluster.specs.ledger.Bounded.{LeavingKeepsBounds, OthersKeepBounds};

/// A placement keeps the rows in bounds, if what is placed has a size that a request may have, and
/// fits in what is free of the node.
pub fn placing_keeps_bounds()
    ensures { PlacingKeepsBounds }
{}

/// An end keeps them.
pub fn ending_keeps_bounds()
    ensures { EndingKeepsBounds }
{}

/// A container that goes with its node keeps them.
pub fn dropping_keeps_bounds()
    ensures { DroppingKeepsBounds }
{}

/// A node that joins keeps them, if there are fewer nodes than may be.
pub fn joining_keeps_bounds()
    ensures { JoiningKeepsBounds }
{}

/// A node that leaves keeps them.
pub fn leaving_keeps_bounds()
    ensures { LeavingKeepsBounds }
{}

/// Changes that leave partitions and nodes keep them.
pub fn others_keep_bounds()
    ensures { OthersKeepBounds }
{}

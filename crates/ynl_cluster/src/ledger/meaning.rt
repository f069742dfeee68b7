//! What the ledger of the rows says of the state that they mean: each law the contract of a public
//! function.

ghost use Rattle.ynl_cluster.specs.ledger.Meaning.{AreTotalsTold, AreUsesTold, AreAllListed};
ghost use Rattle.ynl_cluster.specs.ledger.Small.{AreTotalsSmall, AreUsesSmall, AreUsesWithin};

/// There is as much of each partition of the state, and as many nodes, as the rows tell.
pub fn totals_are_told()
    ensures { AreTotalsTold }
{}

/// Each queue uses as much of each partition of the state as the rows tell.
pub fn uses_are_told()
    ensures { AreUsesTold }
{}

/// The ledger has what is used and how much there is by the numbers of partitions and queues.
pub fn all_are_listed()
    ensures { AreAllListed }
{}

/// Totals are small, while nodes are of the sizes and the numbers that they may have.
pub fn totals_are_small()
    ensures { AreTotalsSmall }
{}

/// Uses are small, while what stands on each node fits there.
pub fn uses_are_small()
    ensures { AreUsesSmall }
{}

/// Uses are within their partition's total, while what stands on each node fits there.
pub fn uses_are_within()
    ensures { AreUsesWithin }
{}

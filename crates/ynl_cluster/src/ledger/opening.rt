//! The ledger of a cluster before any event.

ghost use Rattle.ynl_cluster.specs.ledger.Opening.{AreAllOpened};

/// Before any event nothing is used, and there are no nodes.
pub fn all_are_opened()
    ensures { AreAllOpened }
{}

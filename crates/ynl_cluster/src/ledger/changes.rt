//! How the ledger changes with the rows: each law the contract of a public function.

ghost use Rattle.ynl_cluster.specs.ledger.Changes.{PlacingRaises, EndingLowers, DroppingLowers};
ghost use Rattle.ynl_cluster.specs.ledger.Changes.{JoiningAdds, LeavingTakes, SubmittingStays};
ghost use Rattle.ynl_cluster.specs.ledger.Changes.{AskingStays, TicketsStay, FinishingStays, UsersStay};

/// A container that is placed raises what the queues on the way to its leaf use.
pub fn placing_raises()
    ensures { PlacingRaises }
{}

/// One that ends lowers it.
pub fn ending_lowers()
    ensures { EndingLowers }
{}

/// One that goes with its node lowers it too.
pub fn dropping_lowers()
    ensures { DroppingLowers }
{}

/// A node that joins a partition adds to the total.
pub fn joining_adds()
    ensures { JoiningAdds }
{}

/// One that leaves takes from it.
pub fn leaving_takes()
    ensures { LeavingTakes }
{}

/// An application that is submitted changes no use and no total.
pub fn submitting_stays()
    ensures { SubmittingStays }
{}

/// What an application asks for changes none.
pub fn asking_stays()
    ensures { AskingStays }
{}

/// Its tickets change none.
pub fn tickets_stay()
    ensures { TicketsStay }
{}

/// An application without containers that is finished changes none.
pub fn finishing_stays()
    ensures { FinishingStays }
{}

/// A new user changes none.
pub fn users_stay()
    ensures { UsersStay }
{}

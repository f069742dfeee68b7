//! What the seats are in the model, and which changes of the rows leave them.

ghost use Rattle.ynl_cluster.specs.seating.Laws.{AreFound, AreLeasts, AreMet, AreSharing};
ghost use Rattle.ynl_cluster.specs.seating.Laws.{AreStill, AreUsers, IsAskedBut, IsSeatedFirst};
ghost use Rattle.ynl_cluster.specs.seating.Laws.{IsSubmittedLast, IsUserUse, IsUseWithin};

/// Before any event no lane has a seat.
pub fn no_seats_at_first()
    ensures { IsSeatedFirst }
{}

/// The seat of an application on a partition that it shares stands under its ticket.
pub fn seats_are_found()
    ensures { AreFound }
{}

/// A new application comes last and has no seats yet, if there is room for them.
pub fn new_applications_come_last()
    ensures { IsSubmittedLast }
{}

/// No seat changes where a node joins, where one without containers leaves, and where a user gets a number.
pub fn others_are_still()
    ensures { AreStill }
{}

/// Where an application asks, only what waits of it changes.
pub fn asks_change_what_waits()
    ensures { IsAskedBut }
{}

/// The least that is asked for on a partition is below each size that is asked for there, so that it waits; and nothing waits
/// where nothing is asked for.
pub fn leasts_are_below()
    ensures { AreLeasts }
{}

/// Those who sit in a lane are the model's applications that share the leaf's part of the partition.
pub fn seats_are_of_those_who_share()
    ensures { AreSharing }
{}

/// Their users are as many as the model counts.
pub fn users_are_counted()
    ensures { AreUsers }
{}

/// What a user uses is what the model says.
pub fn use_is_counted()
    ensures { IsUserUse }
{}

/// Something waits at a seat where a request of its application does: an ask of one that runs, or its master.
pub fn requests_are_met()
    ensures { AreMet }
{}

/// What a user uses fits in what the containers of the partition use together, and in what the leaf uses.
pub fn use_is_within()
    ensures { IsUseWithin }
{}

//! Laws of saved states: theorems over the definitions alone, each the contract of a public function.

ghost use Rattle.ynl_saved.specs.Laws.{AreAsksWithin, AreRestoredAsksWithin, AreRestoredTold, DoRestoredWork, TellsState};

/// The lines of the state after events are sound one after another, and tell that state.
pub fn states_are_told()
    ensures { TellsState }
{}

/// No ask of the state after events counts more than an ask may, where none does that they set.
pub fn asks_stay_within()
    ensures { AreAsksWithin }
{}

/// Under an accepted configuration, where lines are sound one after another and their sizes are in range, the lines of
/// the state that they tell are sound one after another too, and tell that state. So it is with each state that events
/// reach from it.
pub fn restored_states_are_told()
    ensures { AreRestoredTold }
{}

/// Such a state works, and so does each that events reach from it whose sizes are in range: it keeps what each state
/// keeps that a cluster reaches from its opening state.
pub fn restored_states_work()
    ensures { DoRestoredWork }
{}

/// No ask of such a state counts more than an ask may, nor does one of a state that events reach from it, where none does
/// that the lines tell or the events set.
pub fn restored_asks_stay_within()
    ensures { AreRestoredAsksWithin }
{}

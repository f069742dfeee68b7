//! The order of service.

ghost use Rattle.ynl_laws.specs.Decided.{DoQueuesDecide, DoSiblingsNotTie, DoesSubmissionDecide};
ghost use Rattle.ynl_laws.specs.Descent.{IsFirstBelowLeast};
ghost use Rattle.ynl_laws.specs.First.{AreTabledUntied, IsFirstAlone, IsFirstChosenUntied, IsFirstFound};
ghost use Rattle.ynl_laws.specs.Least.{IsServiceOrdered};
ghost use Rattle.ynl_laws.specs.Untied.{DoRequestsNotTie, DoGuestsNotTie, IsChoiceBeforeAllOthers};

/// Of two requests one is before the other or they tie, and what ties compares alike with every other.
pub fn service_is_ordered()
    ensures { IsServiceOrdered }
{}

/// In each state of every configuration no two requests for a partition tie, and no two of the asks that
/// guests come from: two whose keys tie are one request.
pub fn requests_do_not_tie()
    ensures requests { DoRequestsNotTie }
    ensures guests { DoGuestsNotTie }
{}

/// In each state what is chosen for a node is before all other eligible requests; where none is eligible
/// it is a guest, and before all other guests. So the choice hangs on no list's order.
pub fn choice_is_before_all_others()
    ensures { IsChoiceBeforeAllOthers }
{}

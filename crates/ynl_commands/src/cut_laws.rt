//! Runs that are cut and gone on with: laws of the definitions of what [`run_lines`](crate::run_lines),
//! [`save_lines`](crate::save_lines), [`explain_lines`](crate::explain_lines) and
//! [`audit_lines`](crate::audit_lines) tell from a state.

ghost use Rattle.ynl_commands.specs.Cutting.{CutExplanationsAreOne, CutJournalsAgree, CutRunsAreOne, CutSavesAreOne};

/// A run that was cut behind whole lines, of which none has a fault, and gone on with from the state that they
/// leave, is one: its text is that of the first part and then that of the second, but for the number of the
/// line that a fault of the second is told with, which counts on; and the state that it leaves is that of the
/// second.
pub fn cut_runs_are_one()
    ensures { CutRunsAreOne }
{}

/// What is saved after both parts in one is what is saved after the second from the state that the first
/// leaves.
pub fn cut_saves_are_one()
    ensures { CutSavesAreOne }
{}

/// What is explained after both parts in one is what is explained after the second from the state that the
/// first leaves.
pub fn cut_explanations_are_one()
    ensures { CutExplanationsAreOne }
{}

/// The replies of a journal are the cluster's exactly where those of its first part are, and those of its
/// second are from the state that the events of the first leave.
pub fn cut_journals_agree()
    ensures { CutJournalsAgree }
{}

//! Which labels a queue may use: root all, and on the way down those that each row gives.

ghost use Rattle.std.specs.Prelude.{◌≡◌, option_copied};
ghost use Rattle.std.specs.List.{list_any};
ghost use Rattle.ynl_model.specs.Queues.{given, accessible, may_use, Inherited, setting};
ghost use Rattle.ynl_resource.specs.Names.{same_name};
ghost use Rattle.ynl_queues.specs.Reach.{reached, is_among};

use crate::draft::Draft;
use crate::labels::Labels;
use crate::rows::Access;
use crate::ways::step_at;
use ynl_resource::{Label, Name};

fn lists(names: &[Name], name: &Name) -> bool
    ensures { result ≡ list_any (same_name name.now) names.now }
{
    names.iter().any(|listed| *name == *listed)
}

/// Whether a label is among those given, or among all that are configured where none are given.
#[tactic(auto, using(crate::proofs::Known::known))]
pub(crate) fn reaches(labels: &Labels, reach: Option<&[Name]>, label: &Label) -> bool
    ensures { result ≡ is_among (reached labels.now (option_copied reach.entry)) label.now }
{
    let Some(names) = reach else {
        return labels.has(label);
    };
    match label {
        Label::Unlabelled => true,
        Label::Named(name) => lists(names, name),
    }
}

impl Draft {
    /// The labels that a queue's own row gives, where those above are its parent's.
    fn step_reach<'a>(&'a self, step: &[Name], above: Option<&'a [Name]>) -> Option<&'a [Name]>
        ensures { reached self.now.labels (option_copied result) ≡ given (reached self.now.labels (option_copied above.entry)) self.now (setting (λ row. row.access) Inherited self.now step.now) }
    {
        match self.row(step) {
            Some(row) => match &row.access {
                Access::Inherited => above,
                Access::AllLabels => None,
                Access::Listed(names) => Some(names),
            },
            None => above,
        }
    }

    /// The labels that a queue may use: those given, or all that are configured where none are
    /// given.
    #[tactic(auto, unfolding(ynl_model::specs::Queues::accessible))]
    pub(crate) fn reach<'a>(&'a self, queue: &[Name]) -> Option<&'a [Name]>
        ensures { reached self.now.labels (option_copied result) ≡ accessible self.now queue.now }
    {
        let mut reach = None;
        for depth in 0..queue.len() {
            let step = step_at(queue, depth + 1);
            reach = self.step_reach(step, reach);
        }
        reach
    }

    /// Whether the queue may use the label; each may use DEFAULT.
    #[tactic(auto, unfolding(ynl_model::specs::Queues::may_use))]
    pub fn may_use(&self, queue: &[Name], label: &Label) -> bool
        ensures { result ≡ may_use self.now queue.now label.now }
    {
        match label {
            Label::Unlabelled => true,
            Label::Named(_) => reaches(self.labels(), self.reach(queue), label),
        }
    }
}

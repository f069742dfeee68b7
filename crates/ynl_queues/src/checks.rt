//! Whether the queues of a configuration make a tree: paths that differ, with parents, and labels
//! that are configured and stay within the parent's.

ghost use Rattle.std.specs.Prelude.{◌≡◌, map, option_copied};
ghost use Rattle.std.specs.List.{list_any, list_all};
ghost use Rattle.ynl_resource.specs.Names.{same_path, root};
ghost use Rattle.ynl_resource.specs.declared.labels.Label.TheVariants.{Named};
ghost use Rattle.ynl_model.specs.Queues.{is_queue};
ghost use Rattle.ynl_model.specs.Accepted.{all_differ, all_queues, parent_of, names_known_labels, stays_within};
ghost use Rattle.ynl_queues.specs.Reach.{reached, is_among};

use crate::access::reaches;
use crate::draft::Draft;
use crate::labels::Labels;
use crate::rows::QueueRow;
use crate::ways::parent_of;
use ynl_model::LabelCapacity;
use ynl_resource::{Label, Name, Path};

/// Whether a row has a path, which is compared where it stands: a path is large.
fn has_row(rows: &[QueueRow], path: &Path) -> bool
    ensures { result ≡ list_any (λ row. same_path path.now row.path) rows.now }
{
    rows.iter().any(|row| *path == row.path)
}

#[tactic(auto, using(crate::proofs::Mapped::any_mapped))]
fn has_path(rows: &[QueueRow], path: &Path) -> bool
    ensures { result ≡ list_any (same_path path.now) (map (λ row. row.path) rows.now) }
{
    has_row(rows, path)
}

fn has_root(rows: &[QueueRow]) -> bool
    ensures { result ≡ list_any (same_path root) (map (λ row. row.path) rows.now) }
{
    rows.iter()
        .map(|row| row.path)
        .any(|path| path.names().is_empty())
}

/// Whether no two rows have one path.
fn paths_differ(rows: &[QueueRow]) -> bool
    ensures { result ≡ all_differ same_path (map (λ row. row.path) rows.now) }
{
    for i in 0..rows.len() {
        let row = &rows[i];
        if has_path(&rows[i + 1..], &row.path) {
            return false;
        }
    }
    true
}

/// Whether all of the names are those of labels that are reached.
fn names_stay_within(labels: &Labels, reach: Option<&[Name]>, names: &[Name]) -> bool
    ensures { result ≡ list_all (λ name. is_among (reached labels.now (option_copied reach.entry)) (Named name)) names.now }
{
    names
        .iter()
        .all(|name| reaches(labels, reach, &Label::Named(*name)))
}

/// Whether all labels that are configured are reached.
fn all_stay_within(labels: &Labels, reach: Option<&[Name]>) -> bool
    ensures { result ≡ list_all (λ name. is_among (reached labels.now (option_copied reach.entry)) (Named name)) (map (λ row. row.name) labels.now.rows) }
{
    labels
        .rows()
        .iter()
        .map(|row| row.name)
        .all(|name| reaches(labels, reach, &Label::Named(name)))
}

/// Whether all of the labels that are reached are reached above too.
fn stay_within(labels: &Labels, above: Option<&[Name]>, reach: Option<&[Name]>) -> bool
    ensures { result ≡ list_all (λ name. is_among (reached labels.now (option_copied above.entry)) (Named name)) (reached labels.now (option_copied reach.entry)) }
{
    match reach {
        Some(names) => names_stay_within(labels, above, names),
        None => all_stay_within(labels, above),
    }
}

/// Whether all that is given is on labels that are reached.
fn capacities_stay_within(
    labels: &Labels,
    reach: Option<&[Name]>,
    capacities: &[LabelCapacity],
) -> bool
    ensures { result ≡ list_all (λ given. is_among (reached labels.now (option_copied reach.entry)) (Named given.label)) capacities.now }
{
    capacities
        .iter()
        .all(|given| reaches(labels, reach, &Label::Named(given.label)))
}

impl Draft {
    /// Whether neither two queues have one path, nor one has root's.
    pub(crate) fn queues_differ(&self) -> bool
        ensures { result ≡ all_differ same_path (all_queues self.now) }
    {
        !has_root(self.queues()) && paths_differ(self.queues())
    }

    /// Whether each queue's parent is root or a queue.
    pub(crate) fn parents_are_there(&self) -> bool
        ensures { result ≡ list_all (λ row. is_queue self.now (parent_of row.path)) self.now.queues }
    {
        self.queues()
            .iter()
            .all(|row| self.is_queue(parent_of(row.path.names())))
    }

    fn names_known_labels(&self, row: &QueueRow) -> bool
        ensures { result ≡ names_known_labels self.now row.now }
    {
        let labels = self.labels();
        names_stay_within(labels, None, row.access.listed())
            && capacities_stay_within(labels, None, &row.capacities)
            && labels.has(&row.leaf.default_label)
    }

    /// Whether each row names only labels that are configured.
    pub(crate) fn labels_are_known(&self) -> bool
        ensures { result ≡ list_all (names_known_labels self.now) self.now.queues }
    {
        self.queues().iter().all(|row| self.names_known_labels(row))
    }

    #[tactic(auto, unfolding(ynl_model::specs::Queues::may_use))]
    fn stays_within(&self, row: &QueueRow) -> bool
        ensures { result ≡ stays_within self.now row.now }
    {
        let labels = self.labels();
        let reach = self.reach(row.path.names());
        let above = self.reach(parent_of(row.path.names()));
        stay_within(labels, above, reach)
            && capacities_stay_within(labels, reach, &row.capacities)
            && reaches(labels, reach, &row.leaf.default_label)
    }

    /// Whether each queue may use only what its parent may, and each row speaks only of labels that
    /// its queue may use.
    pub(crate) fn labels_stay_within(&self) -> bool
        ensures { result ≡ list_all (stays_within self.now) self.now.queues }
    {
        self.queues().iter().all(|row| self.stays_within(row))
    }
}

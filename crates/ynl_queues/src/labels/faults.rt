//! Why labels are not accepted.

ghost use Rattle.std.specs.Prelude.{◌≡◌, map, not};
ghost use Rattle.std.specs.List.{list_any, list_all};
ghost use Rattle.ynl_resource.specs.Names.{same_name};
ghost use Rattle.ynl_resource.specs.Refusals.{first_that_holds};
ghost use Rattle.ynl_model.specs.Accepted.{all_differ, is_from_to, label_faults};
ghost use Rattle.ynl_resource.specs.Ranges.{most_clock};

use ynl_model::{LabelFault, LabelRow};
use ynl_resource::{MOST_CLOCK, MOST_LABELS, Name};

fn has_name(rows: &[LabelRow], name: &Name) -> bool
    ensures { result ≡ list_any (same_name name.now) (map (λ row. row.name) rows.now) }
{
    rows.iter().map(|row| row.name).any(|other| *name == other)
}

/// Whether no two rows have one name.
fn names_differ(rows: &[LabelRow]) -> bool
    ensures { result ≡ all_differ same_name (map (λ row. row.name) rows.now) }
{
    for i in 0..rows.len() {
        let row = &rows[i];
        if has_name(&rows[i + 1..], &row.name) {
            return false;
        }
    }
    true
}

fn is_limit(limit: u64) -> bool
    ensures { result ≡ is_from_to 1 most_clock limit }
{
    1 <= limit && limit <= MOST_CLOCK
}

fn limits_fit(rows: &[LabelRow]) -> bool
    ensures { result ≡ list_all (λ row. is_from_to 1 most_clock row.limit) rows.now }
{
    rows.iter().all(|row| is_limit(row.limit))
}

/// The first fault of these labels, if they have one.
#[tactic(auto, unfolding(ynl_model::specs::Accepted::label_faults))]
pub(crate) fn fault_of(rows: &[LabelRow], default_limit: u64) -> Option<LabelFault>
    ensures { result ≡ first_that_holds (label_faults (record { rows = rows.now; default_limit = default_limit })) }
{
    if rows.len() > MOST_LABELS {
        Some(LabelFault::TooManyLabels)
    } else if !names_differ(rows) {
        Some(LabelFault::DuplicateLabel)
    } else if !is_limit(default_limit) || !limits_fit(rows) {
        Some(LabelFault::BadLimit)
    } else {
        None
    }
}

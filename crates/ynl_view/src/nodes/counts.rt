//! How many nodes each partition has.

ghost use Rattle.std.specs.Prelude.{◌≡◌, ◌<◌, ◌+◌, ◌-◌, OnOk, if◌then◌else◌};
ghost use Rattle.ynl_resource.specs.Names.{same_label};
ghost use Rattle.ynl_resource.specs.Ranges.{most_nodes};
ghost use Rattle.ynl_resource.specs.declared.labels.Label.{Label};
ghost use Rattle.ynl_view.specs.nodes.Counts.{count_at, HasRow};

use std::alloc::AllocError;
use std::collections::BTreeMap;
use ynl_resource::Label;

/// How many nodes a label has; none where it has no row.
pub(crate) fn count_at(counts: &BTreeMap<Label, usize>, label: &Label) -> usize
    ensures { result ≡ count_at counts.now label.now }
{
    match counts.get(label) {
        Some(count) => *count,
        None => 0,
    }
}

/// A row for the label, where it has none yet.
pub(crate) fn open_row(counts: &mut BTreeMap<Label, usize>, label: &Label) -> Result<(), AllocError>
    ensures counts { (p : Label) → count_at counts.new p ≡ count_at counts.old p }
    ensures row { OnOk result (HasRow counts.new label.now) }
{
    if !counts.contains_key(label) {
        counts.insert(*label, 0)?;
    }
    Ok(())
}

/// A label has one node more.
pub(crate) fn raise(counts: &mut BTreeMap<Label, usize>, label: &Label)
    requires row { HasRow counts.old label.now }
    requires few { count_at counts.old label.now < most_nodes }
    ensures { (p : Label) → count_at counts.new p ≡ count_at counts.old p + (if same_label label.now p then 1 else 0) }
{
    if let Some(count) = counts.get_mut(label) {
        *count += 1;
    }
}

/// A label has one node less.
pub(crate) fn lower(counts: &mut BTreeMap<Label, usize>, label: &Label)
    ensures { (p : Label) → count_at counts.new p ≡ count_at counts.old p - (if same_label label.now p then 1 else 0) }
{
    if let Some(count) = counts.get_mut(label) {
        *count = count.saturating_sub(1);
    }
}

//! The places of the faults of a tree of queues.

ghost use Rattle.std.specs.Prelude.{◌≡◌, ◌≤◌, ◌-◌, IfOk, length, map, find, take, not, Some, option_map};
ghost use Rattle.std.specs.List.{list_any};
ghost use Rattle.ynl_resource.specs.Names.{same_path, root};
ghost use Rattle.ynl_resource.specs.Texts.{label_text, path_text};
ghost use Rattle.ynl_resource.specs.Ranges.{most_queues};
ghost use Rattle.ynl_resource.specs.declared.labels.Label.TheVariants.{Named};
ghost use Rattle.ynl_model.specs.Nodes.{partition_labels};
ghost use Rattle.ynl_model.specs.Queues.{may_use};
ghost use Rattle.ynl_config.specs.Places.{first_from, nowhere, told_text};
ghost use Rattle.ynl_config.specs.GrantTests as test;
ghost use Rattle.ynl_config.specs.RowPlaces as spec;
ghost use Rattle.ynl_config.specs.Lent.{shown_of, lent_of, seen, label_of};
ghost use Rattle.ynl_config.specs.Misplaced.{place_at_queue, place_in_tree};

use crate::faults::ConfigFault;
use crate::lent::{LentPlace, LentValue};
use crate::places::RowKind;
use std::alloc::{AllocError, Global};
use ynl_model::LabelCapacity;
use ynl_queues::labels::Labels;
use ynl_queues::{Draft, Grant, QueueRow, parent_of, total_capacity};
use ynl_resource::{Label, Name, Path, WHOLE};

fn path_place(number: u64, path: &Path) -> LentPlace<'_>
    ensures { lent_of result ≡ spec.path_place number path.now }
{
    LentPlace::at_row(RowKind::Queue, number, Some(LentValue::Path(path)))
}

/// The place of the row, if a fault is there.
fn if_there(there: bool, number: u64, path: &Path) -> Option<LentPlace<'_>>
    ensures { option_map lent_of result ≡ spec.if_there there (spec.path_place number path.now) }
{
    if there {
        Some(path_place(number, path))
    } else {
        None
    }
}

fn has_path(rows: &[QueueRow], count: usize, path: &Path) -> bool
    requires { count ≤ length rows.now }
    ensures { result ≡ list_any (λ other. same_path path.now other.path) (take count rows.now) }
{
    let before = &rows[..count];
    for i in 0..before.len() {
        let other = &before[i];
        if *path == other.path {
            return true;
        }
    }
    false
}

fn repeated_queue<'t>(config: &Draft, number: u64, row: &'t QueueRow) -> Option<LentPlace<'t>>
    requires { number - 1 ≤ length config.now.queues }
    ensures { option_map lent_of result ≡ spec.repeated_queue config.now number row.now }
{
    let before = (number as usize).saturating_sub(1);
    let there = has_path(config.queues(), before, &row.path);
    if_there(there, number, &row.path)
}

fn orphan<'t>(config: &Draft, number: u64, row: &'t QueueRow) -> Option<LentPlace<'t>>
    ensures { option_map lent_of result ≡ spec.orphan config.now number row.now }
{
    let there = !config.is_queue(parent_of(row.path.names()));
    if_there(there, number, &row.path)
}

/// The place at a key of a queue's row, and the label at fault there.
fn at_label<'t>(number: u64, path: &'t Path, key: &'t str, label: &'t str) -> LentPlace<'t>
    ensures { lent_of result ≡ record (spec.path_place number path.now) { key = told_text key.now; label = told_text label.now } }
{
    let mut place = path_place(number, path);
    place.key = Some(LentValue::Text(key));
    place.label = Some(LentValue::Text(label));
    place
}

/// The labels at fault of a queue's row: of those listed, the default label, and of those of its shares.
#[derive(Clone, Copy)]
struct AtFault<'t> {
    listed: Option<&'t Name>,
    default: Option<&'t Label>,
    shared: Option<&'t Name>,
}

/// The place of the first of the labels at fault.
fn label_at_fault<'t>(number: u64, path: &'t Path, labels: AtFault<'t>) -> Option<LentPlace<'t>>
    ensures { option_map lent_of result
        ≡ spec.label_at_fault number path.now (seen labels.entry.listed) (seen labels.entry.default) (seen labels.entry.shared) }
{
    let (key, label) = if let Some(name) = labels.listed {
        ("accessible-node-labels", name.as_str())
    } else if let Some(label) = labels.default {
        ("default-node-label-expression", label.as_str())
    } else if let Some(name) = labels.shared {
        ("label", name.as_str())
    } else {
        return None;
    };
    Some(at_label(number, path, key, label))
}

fn is_unknown(config: &Draft, name: Name) -> bool
    ensures { result ≡ spec.is_unknown config.now name }
{
    !config.labels().has(&Label::Named(name))
}

fn unknown_name<'t>(config: &Draft, names: &'t [Name]) -> Option<&'t Name>
    ensures { seen result ≡ find (spec.is_unknown config.now) names.now }
{
    for i in 0..names.len() {
        if is_unknown(config, names[i]) {
            return Some(&names[i]);
        }
    }
    None
}

fn unknown_share<'t>(config: &Draft, shares: &'t [LabelCapacity]) -> Option<&'t Name>
    ensures { seen result ≡ find (spec.is_unknown config.now) (map (λ given. given.label) shares.now) }
{
    for i in 0..shares.len() {
        if is_unknown(config, shares[i].label) {
            return Some(&shares[i].label);
        }
    }
    None
}

fn unknown_default<'t>(config: &Draft, row: &'t QueueRow) -> Option<&'t Label>
    ensures { seen result ≡ spec.unknown_default config.now row.now }
{
    let default = &row.leaf.default_label;
    label_if(!config.labels().has(default), default)
}

/// The label, if a fault is there.
fn label_if(there: bool, label: &Label) -> Option<&Label>
    ensures { seen result ≡ spec.label_if there label.now }
{
    if there { Some(label) } else { None }
}

#[tactic(auto, unfolding(crate::specs::RowPlaces::unknown_label))]
fn unknown_label<'t>(config: &Draft, number: u64, row: &'t QueueRow) -> Option<LentPlace<'t>>
    ensures { option_map lent_of result ≡ spec.unknown_label config.now number row.now }
{
    let found = AtFault {
        listed: unknown_name(config, row.access.listed()),
        default: unknown_default(config, row),
        shared: unknown_share(config, &row.capacities),
    };
    label_at_fault(number, &row.path, found)
}

/// Whether a queue may use a label that the one above it may not.
fn goes_beyond(labels: &Labels, queue: &Grant, above: &Grant, name: Name) -> bool
    ensures { result ≡ test.goes_beyond labels.now queue.now above.now name }
{
    let label = Label::Named(name);
    queue.may_use(labels, &label) && !above.may_use(labels, &label)
}

fn name_beyond<'t>(config: &'t Draft, queue: &[Name]) -> Option<&'t Name>
    ensures { seen result ≡ find (spec.goes_beyond config.now queue.now) (spec.names_of config.now) }
{
    let labels = config.labels();
    let below = config.grant(queue);
    let above = config.grant(parent_of(queue));
    let rows = labels.rows();
    for i in 0..rows.len() {
        if goes_beyond(labels, &below, &above, rows[i].name) {
            return Some(&rows[i].name);
        }
    }
    None
}

fn share_beyond<'t>(config: &Draft, row: &'t QueueRow) -> Option<&'t Name>
    ensures { seen result ≡ find (λ name. not (may_use config.now row.now.path (Named name))) (map (λ given. given.label) row.now.capacities) }
{
    let labels = config.labels();
    let queue = config.grant(row.path.names());
    let shares = row.capacities.as_slice();
    for i in 0..shares.len() {
        if !queue.may_use(labels, &Label::Named(shares[i].label)) {
            return Some(&shares[i].label);
        }
    }
    None
}

#[tactic(auto, unfolding(crate::specs::RowPlaces::label_beyond))]
fn label_beyond<'t>(config: &'t Draft, number: u64, row: &'t QueueRow) -> Option<LentPlace<'t>>
    ensures { option_map lent_of result ≡ spec.label_beyond config.now number row.now }
{
    let queue = row.path.names();
    let default = &row.leaf.default_label;
    let found = AtFault {
        listed: name_beyond(config, queue),
        default: label_if(!config.may_use(queue, default), default),
        shared: share_beyond(config, row),
    };
    label_at_fault(number, &row.path, found)
}

/// A partition, by the name of its label.
#[derive(Clone, Copy)]
enum Partition<'t> {
    Default,
    Labelled(&'t Name),
}

impl<'t> Partition<'t> {
    fn label(self) -> Label
        ensures { result ≡ label_of self.entry }
    {
        match self {
            Partition::Default => Label::Unlabelled,
            Partition::Labelled(name) => Label::Named(*name),
        }
    }

    fn text(self) -> &'t str
        ensures { result.now ≡ label_text (label_of self.entry) }
    {
        match self {
            Partition::Default => "",
            Partition::Labelled(name) => name.as_str(),
        }
    }
}

fn is_low(labels: &Labels, queue: &Grant, label: &Label) -> bool
    ensures { result ≡ test.is_low labels.now queue.now label.now }
{
    let capacity = queue.capacity_on(labels, label).number();
    let maximum = queue.maximum_on(labels, label).number();
    capacity > maximum
}

fn low_partition<'t>(labels: &'t Labels, queue: &Grant) -> Option<Partition<'t>>
    ensures { option_map label_of result ≡ find (test.is_low labels.now queue.now) (partition_labels labels.now) }
{
    if is_low(labels, queue, &Label::Unlabelled) {
        return Some(Partition::Default);
    }
    let rows = labels.rows();
    for i in 0..rows.len() {
        if is_low(labels, queue, &Label::Named(rows[i].name)) {
            return Some(Partition::Labelled(&rows[i].name));
        }
    }
    None
}

#[tactic(auto, unfolding(crate::specs::RowPlaces::low_maximum))]
fn low_maximum<'t>(config: &'t Draft, number: u64, row: &'t QueueRow) -> Option<LentPlace<'t>>
    ensures { option_map lent_of result ≡ spec.low_maximum config.now number row.now }
{
    let labels = config.labels();
    let queue = config.grant(row.path.names());
    let Some(partition) = low_partition(labels, &queue) else {
        return None;
    };
    let label = partition.label();
    let mut place = path_place(number, &row.path);
    place.label = Some(LentValue::Text(partition.text()));
    place.capacity = Some(queue.capacity_on(labels, &label).number());
    place.maximum = Some(queue.maximum_on(labels, &label).number());
    Some(place)
}

/// Whether what queues have together is the whole of a partition, or nothing of a label.
fn comes_out(labels: &Labels, queues: &[Grant], label: &Label) -> bool
    requires { length queues.now ≤ most_queues }
    ensures { result ≡ test.comes_out labels.now queues.now label.now }
{
    let total = total_capacity(labels, queues, label);
    match label {
        Label::Unlabelled => total == WHOLE,
        Label::Named(_) => total == WHOLE || total == 0,
    }
}

fn odd_partition<'t>(labels: &'t Labels, queues: &[Grant]) -> Option<Partition<'t>>
    requires { length queues.now ≤ most_queues }
    ensures { option_map label_of result ≡ find (λ label. not (test.comes_out labels.now queues.now label)) (partition_labels labels.now) }
{
    if !comes_out(labels, queues, &Label::Unlabelled) {
        return Some(Partition::Default);
    }
    let rows = labels.rows();
    for i in 0..rows.len() {
        if !comes_out(labels, queues, &Label::Named(rows[i].name)) {
            return Some(Partition::Labelled(&rows[i].name));
        }
    }
    None
}

/// The place of a sum on a partition.
fn sum_place<'t>(queue: LentValue<'t>, label: &'t str, sum: u64) -> LentPlace<'t>
    ensures { lent_of result ≡ record nowhere { queue = shown_of queue.entry; label = told_text label.now; sum = Some sum } }
{
    LentPlace {
        queue: Some(queue),
        label: Some(LentValue::Text(label)),
        sum: Some(sum),
        ..LentPlace::nowhere()
    }
}

/// The place of the first partition of which what stands just below a queue comes to something else, with the
/// queue's text.
fn wrong_sum<'t>(
    alloc: Global,
    config: &'t Draft,
    queue: &[Name],
    text: LentValue<'t>,
) -> Result<Option<LentPlace<'t>>, AllocError>
    requires few { length config.now.queues ≤ most_queues }
    requires text { shown_of text ≡ told_text (path_text queue.now) }
    ensures { IfOk result (λ p. option_map lent_of p ≡ spec.wrong_sum config.now queue.now) }
{
    let labels = config.labels();
    let below = config.grants_below(alloc, queue)?;
    let Some(partition) = odd_partition(labels, &below) else {
        return Ok(None);
    };
    let sum = total_capacity(labels, &below, &partition.label());
    Ok(Some(sum_place(text, partition.text(), sum)))
}

#[tactic(auto, unfolding(ynl_resource::specs::Texts::path_text))]
fn wrong_root(alloc: Global, config: &Draft) -> Result<Option<LentPlace<'_>>, AllocError>
    requires { length config.now.queues ≤ most_queues }
    ensures { IfOk result (λ p. option_map lent_of p ≡ spec.wrong_sum config.now root) }
{
    wrong_sum(alloc, config, &[], LentValue::Text("root"))
}

fn wrong_parent<'t>(
    alloc: Global,
    config: &'t Draft,
    row: &'t QueueRow,
) -> Result<Option<LentPlace<'t>>, AllocError>
    requires { length config.now.queues ≤ most_queues }
    ensures { IfOk result (λ p. option_map lent_of p ≡ spec.wrong_parent config.now row.now) }
{
    let queue = row.path.names();
    if config.is_leaf(queue) {
        return Ok(None);
    }
    wrong_sum(alloc, config, queue, LentValue::Path(&row.path))
}

fn place_at_queue<'t>(
    alloc: Global,
    fault: ConfigFault,
    config: &'t Draft,
    number: u64,
    row: &'t QueueRow,
) -> Result<Option<LentPlace<'t>>, AllocError>
    requires few { length config.now.queues ≤ most_queues }
    requires before { number - 1 ≤ length config.now.queues }
    ensures { IfOk result (λ p. option_map lent_of p ≡ place_at_queue fault config.now number row.now) }
{
    match fault {
        ConfigFault::DuplicateQueue => Ok(repeated_queue(config, number, row)),
        ConfigFault::NoParent => Ok(orphan(config, number, row)),
        ConfigFault::NoSuchLabel => Ok(unknown_label(config, number, row)),
        ConfigFault::NotSubset => Ok(label_beyond(config, number, row)),
        ConfigFault::MaximumBelowCapacity => Ok(low_maximum(config, number, row)),
        ConfigFault::SumNot100 => wrong_parent(alloc, config, row),
        _ => Ok(None),
    }
}

fn place_in_queues<'t>(
    alloc: Global,
    fault: ConfigFault,
    config: &'t Draft,
) -> Result<Option<LentPlace<'t>>, AllocError>
    requires { length config.now.queues ≤ most_queues }
    ensures { IfOk result (λ p. option_map lent_of p ≡ first_from (place_at_queue fault config.now) 1 config.now.queues) }
{
    let rows = config.queues();
    for i in 0..rows.len() {
        let place = place_at_queue(alloc, fault, config, i as u64 + 1, &rows[i])?;
        if place.is_some() {
            return Ok(place);
        }
    }
    Ok(None)
}

/// The first place of a fault of the tree of queues. Of sums root comes before all rows.
#[tactic(auto, unfolding(crate::specs::Misplaced::place_in_tree))]
pub(crate) fn place_in_tree(
    alloc: Global,
    fault: ConfigFault,
    config: &Draft,
) -> Result<Option<LentPlace<'_>>, AllocError>
    requires { length config.now.queues ≤ most_queues }
    ensures { IfOk result (λ p. option_map lent_of p ≡ place_in_tree fault config.now) }
{
    if fault.is(ConfigFault::SumNot100) {
        if let Some(place) = wrong_root(alloc, config)? {
            return Ok(Some(place));
        }
    }
    place_in_queues(alloc, fault, config)
}

//! The places of the faults that the rows of a text have together: first the labels and the paths' texts, then the tree.

ghost use Rattle.std.specs.Prelude.{◌≡◌, ◌≤◌, ◌-◌, IfOk, IfSome, length, take, option_map, option_and_then, unwrap_or};
ghost use Rattle.std.specs.List.{list_any};
ghost use Rattle.ynl_resource.specs.Names.{same_name};
ghost use Rattle.ynl_resource.specs.Ranges.{most_queues};
ghost use Rattle.ynl_resource.specs.Texts.{read_path};
ghost use Rattle.ynl_queues.specs.Written.{is_below_root};
ghost use Rattle.ynl_config.specs.Places.{nowhere, place_of, first_from};
ghost use Rattle.ynl_config.specs.RowPlaces as spec;
ghost use Rattle.ynl_config.specs.Lent.{shown, lent_of};
ghost use Rattle.ynl_config.specs.Misplaced.{place_at_text, place_in_texts, place_in_tree, tree_of_rows, tree_written, place_together};

use crate::faults::ConfigFault;
use crate::lent::{LentPlace, LentValue};
use crate::places::{Place, RowKind};
use crate::telling::keep;
use crate::tree_places::place_in_tree;
use crate::written::Written;
use std::alloc::{AllocError, Global};
use ynl_model::LabelRow;
use ynl_queues::labels::Labels;
use ynl_queues::{Draft, WrittenQueue, above, as_written, count_together, is_too_deep};
use ynl_resource::{MOST_CHILDREN, MOST_QUEUES, Name, Path};

/// The place at which so many rows are told.
fn count_place<'t>(count: usize) -> LentPlace<'t>
    ensures { lent_of result ≡ spec.count_place count }
{
    let mut place = LentPlace::nowhere();
    place.value = Some(LentValue::Count(count));
    place
}

fn has_name(rows: &[LabelRow], count: usize, name: &Name) -> bool
    requires { count ≤ length rows.now }
    ensures { result ≡ list_any (λ other. same_name name.now other.name) (take count rows.now) }
{
    let before = &rows[..count];
    for i in 0..before.len() {
        if *name == before[i].name {
            return true;
        }
    }
    false
}

fn repeated_label<'t>(rows: &[LabelRow], number: u64, row: &'t LabelRow) -> Option<LentPlace<'t>>
    requires { number - 1 ≤ length rows.now }
    ensures { option_map lent_of result ≡ spec.repeated_label rows.now number row.now }
{
    let before = (number as usize).saturating_sub(1);
    if !has_name(rows, before, &row.name) {
        return None;
    }
    let name = LentValue::Text(row.name.as_str());
    Some(LentPlace::at_row(RowKind::Label, number, Some(name)))
}

/// The first label whose name stands in one before.
fn first_repeated_label(rows: &[LabelRow]) -> Option<LentPlace<'_>>
    ensures { option_map lent_of result ≡ first_from (spec.repeated_label rows.now) 1 rows.now }
{
    for i in 0..rows.len() {
        let place = repeated_label(rows, i as u64 + 1, &rows[i]);
        if place.is_some() {
            return place;
        }
    }
    None
}

fn text_place(number: u64, path: &str) -> LentPlace<'_>
    ensures { lent_of result ≡ spec.text_place number path.now }
{
    LentPlace::at_row(RowKind::Queue, number, Some(LentValue::Text(path)))
}

/// Bytes as they are told, if they are a text.
fn told_bytes(bytes: &[u8]) -> Option<LentValue<'_>>
    ensures { shown result ≡ spec.told_bytes bytes.now }
{
    match str::from_utf8(bytes) {
        Ok(text) => Some(LentValue::Text(text)),
        Err(_) => None,
    }
}

fn deep_path(number: u64, row: &WrittenQueue) -> Option<LentPlace<'_>>
    ensures { option_map lent_of result ≡ spec.deep_path number row.now }
{
    if is_too_deep(row.path.as_bytes()) {
        Some(text_place(number, row.path.as_str()))
    } else {
        None
    }
}

fn is_below_root(text: &str) -> bool
    ensures { result ≡ is_below_root (read_path text.now) }
{
    match Path::parse(text) {
        Ok(path) => !path.names().is_empty(),
        Err(_) => false,
    }
}

fn bad_path(number: u64, row: &WrittenQueue) -> Option<LentPlace<'_>>
    ensures { option_map lent_of result ≡ spec.bad_path number row.now }
{
    if is_below_root(row.path.as_str()) {
        None
    } else {
        Some(text_place(number, row.path.as_str()))
    }
}

fn crowd<'t>(rows: &[WrittenQueue], row: &'t WrittenQueue) -> Option<LentPlace<'t>>
    ensures { option_map lent_of result ≡ spec.crowd rows.now row.now }
{
    let count = count_together(rows, row);
    if count <= MOST_CHILDREN {
        return None;
    }
    let mut place = count_place(count);
    place.queue = told_bytes(above(row.path.as_bytes()));
    Some(place)
}

fn place_at_text<'t>(
    fault: ConfigFault,
    rows: &[WrittenQueue],
    number: u64,
    row: &'t WrittenQueue,
) -> Option<LentPlace<'t>>
    ensures { option_map lent_of result ≡ place_at_text fault rows.now number row.now }
{
    match fault {
        ConfigFault::TooDeep => deep_path(number, row),
        ConfigFault::TooMany => crowd(rows, row),
        ConfigFault::BadPath => bad_path(number, row),
        _ => None,
    }
}

#[tactic(auto, unfolding(crate::specs::Misplaced::place_in_texts))]
fn place_in_texts(fault: ConfigFault, rows: &[WrittenQueue]) -> Option<LentPlace<'_>>
    ensures { option_map lent_of result ≡ place_in_texts fault rows.now }
{
    if fault.is(ConfigFault::TooMany) && rows.len() > MOST_QUEUES {
        return Some(count_place(rows.len()));
    }
    for i in 0..rows.len() {
        let place = place_at_text(fault, rows, i as u64 + 1, &rows[i]);
        if place.is_some() {
            return place;
        }
    }
    None
}

/// The tree of rows, if there are not too many of them and each path is one below root.
fn tree_of_rows(
    alloc: Global,
    labels: &Labels,
    rows: Vec<WrittenQueue>,
) -> Result<Option<Draft>, AllocError>
    ensures tree { IfOk result (λ tree. tree ≡ tree_of_rows labels.now rows.items) }
    ensures few { IfOk result (λ tree. IfSome tree (λ config. length config.queues ≤ most_queues)) }
{
    if rows.len() > MOST_QUEUES {
        return Ok(None);
    }
    as_written(alloc, labels, rows)
}

/// The tree that is written.
fn tree_written(alloc: Global, written: Written) -> Result<Option<Draft>, AllocError>
    ensures tree { IfOk result (λ tree. tree ≡ tree_written written) }
    ensures few { IfOk result (λ tree. IfSome tree (λ config. length config.queues ≤ most_queues)) }
{
    let labels = Labels::new(written.labels, written.numbers.default_limit);
    tree_of_rows(alloc, &labels, written.queues)
}

fn place_in_tree_written(
    alloc: Global,
    fault: ConfigFault,
    written: Written,
) -> Result<Place, AllocError>
    ensures { IfOk result (λ p. place_of p ≡ unwrap_or (option_and_then (place_in_tree fault) (tree_written written)) nowhere) }
{
    match tree_written(alloc, written)? {
        Some(tree) => keep(alloc, place_in_tree(alloc, fault, &tree)?),
        None => Ok(Place::nowhere()),
    }
}

/// The first place of a fault that rows have together.
#[tactic(auto, unfolding(crate::specs::Misplaced::place_together))]
pub(crate) fn place_together(
    alloc: Global,
    fault: ConfigFault,
    written: Written,
) -> Result<Place, AllocError>
    ensures { IfOk result (λ p. place_of p ≡ unwrap_or (place_together fault written) nowhere) }
{
    match fault {
        ConfigFault::TooManyLabels => keep(alloc, Some(count_place(written.labels.len()))),
        ConfigFault::DuplicateLabel => keep(alloc, first_repeated_label(&written.labels)),
        ConfigFault::TooDeep | ConfigFault::TooMany | ConfigFault::BadPath => {
            keep(alloc, place_in_texts(fault, &written.queues))
        }
        _ => place_in_tree_written(alloc, fault, written),
    }
}

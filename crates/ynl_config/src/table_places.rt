//! The places of the faults that single tables and values of a text have.

ghost use Rattle.std.specs.Prelude.{◌≡◌, IfOk, find, not, is_some, option_map};
ghost use Rattle.std.specs.List.{slice_split};
ghost use Rattle.toml.specs.View.{table_view, view, items_view};
ghost use Rattle.ynl_config.specs.Access.{is_comma, trimmed};
ghost use Rattle.ynl_config.specs.Tables.{values_in};
ghost use Rattle.ynl_config.specs.Places.{first_from, is_name, keys_in};
ghost use Rattle.ynl_config.specs.Places as spec;
ghost use Rattle.ynl_config.specs.Lent.{shown, lent_of};

use crate::faults::ConfigFault;
use crate::faulty_keys::{label_key, queue_key, share_key, top_key};
use crate::fields::{find, version_at};
use crate::keys::{KeyFault, faulty_key, is_name, table_at};
use crate::lent::{LentPlace, LentValue};
use crate::listed::trimmed;
use crate::places::RowKind;
use crate::telling::lent_at;
use crate::values::Version;
use crate::written::any_version;
use std::alloc::{AllocError, Global};
use toml::{Table, Value};

/// Whether the value at fault is told.
fn tells_value(fault: ConfigFault) -> bool
    ensures { result ≡ spec.tells_value fault }
{
    match fault {
        ConfigFault::WrongKind | ConfigFault::Version | ConfigFault::Range => true,
        _ => false,
    }
}

fn told_value<'t>(fault: ConfigFault, table: &'t Table, key: &str) -> Option<LentValue<'t>>
    ensures { shown result ≡ spec.told_value fault key.now (table_view table.now) }
{
    if tells_value(fault) {
        lent_at(table, key)
    } else {
        None
    }
}

/// The place at a key of the table whose place this is.
fn at_key<'t>(
    fault: ConfigFault,
    place: LentPlace<'t>,
    table: &'t Table,
    key: &'t str,
) -> LentPlace<'t>
    ensures { lent_of result ≡ spec.at_key fault (lent_of place.entry) (table_view table.now) key.now }
{
    let mut place = place;
    place.key = Some(LentValue::Text(key));
    place.value = told_value(fault, table, key);
    place
}

#[tactic(auto, unfolding(crate::specs::Places::place_at_top))]
fn place_at_top<'t>(fault: ConfigFault, table: &'t Table) -> Option<LentPlace<'t>>
    ensures { option_map lent_of result ≡ spec.place_at_top fault (table_view table.now) }
{
    match top_key(fault, table) {
        Some(key) => Some(at_key(fault, LentPlace::nowhere(), table, key)),
        None => None,
    }
}

#[tactic(auto, unfolding(crate::specs::Places::place_in_label))]
fn place_in_label<'t>(fault: ConfigFault, row: u64, table: &'t Table) -> Option<LentPlace<'t>>
    ensures { option_map lent_of result ≡ spec.place_in_label fault row (table_view table.now) }
{
    let key = label_key(fault, table)?;
    let place = LentPlace::at_row(RowKind::Label, row, lent_at(table, "name"));
    Some(at_key(fault, place, table, key))
}

/// The place of a queue's row.
fn row_of_queue<'t>(row: u64, table: &'t Table) -> LentPlace<'t>
    ensures { lent_of result ≡ spec.row_of_queue row (table_view table.now) }
{
    LentPlace::at_row(RowKind::Queue, row, lent_at(table, "path"))
}

fn bad_part(text: &str) -> Option<&str>
    ensures { option_map (λ part. part.now) result ≡ find (λ part. not (is_name (trimmed part))) (slice_split is_comma text.now) }
{
    text.split(',').find(|part| !is_name(trimmed(part)))
}

/// The first of the labels that a text lists which is none.
fn bad_label_listed(table: &Table) -> Option<LentValue<'_>>
    ensures { shown result ≡ spec.bad_label_listed (table_view table.now) }
{
    let text = find(table, "accessible-node-labels")?.as_str()?;
    let part = bad_part(trimmed(text))?;
    Some(LentValue::Text(trimmed(part)))
}

/// The first key of a queue's shares of labels that names no label.
fn bad_label_named(table: &Table) -> Option<LentValue<'_>>
    ensures { shown result ≡ spec.bad_label_named (table_view table.now) }
{
    let name = faulty_key(KeyFault::NoName, table_at(table, "label")?)?;
    Some(LentValue::Text(name))
}

/// The label at fault, where a queue's row has one at the key.
fn bad_label<'t>(table: &'t Table, key: &str) -> Option<LentValue<'t>>
    ensures { shown result ≡ spec.bad_label (table_view table.now) key.now }
{
    match key {
        "accessible-node-labels" => bad_label_listed(table),
        "label" => bad_label_named(table),
        _ => lent_at(table, key),
    }
}

fn at_queue_key<'t>(fault: ConfigFault, row: u64, table: &'t Table, key: &'t str) -> LentPlace<'t>
    ensures { lent_of result ≡ spec.at_queue_key fault row (table_view table.now) key.now }
{
    let mut place = at_key(fault, row_of_queue(row, table), table, key);
    if fault.is(ConfigFault::BadLabel) {
        place.label = bad_label(table, key);
    }
    place
}

/// The place of the first share of a label that is no table, where such a value has the fault.
#[tactic(auto, unfolding(crate::specs::Places::place_without_table))]
fn place_without_table<'t>(
    fault: ConfigFault,
    row: u64,
    table: &'t Table,
    shares: &'t Table,
) -> Option<LentPlace<'t>>
    ensures { option_map lent_of result ≡ spec.place_without_table fault row (table_view table.now) (table_view shares.now) }
{
    if !fault.is(ConfigFault::WrongKind) {
        return None;
    }
    let name = faulty_key(KeyFault::NoTable, shares)?;
    let mut place = row_of_queue(row, table);
    place.key = Some(LentValue::Text("label"));
    place.label = Some(LentValue::Text(name));
    place.value = lent_at(shares, name);
    Some(place)
}

/// The key at which a queue's share of the label of this name has the fault.
fn key_in_share<'t>(
    fault: ConfigFault,
    version: Version,
    shares: &'t Table,
    name: &str,
) -> Option<&'t str>
    ensures { option_map (λ key. key.now) result ≡ spec.key_in_share fault version (table_view shares.now) name.now }
{
    match table_at(shares, name) {
        Some(share) => share_key(fault, version, share),
        None => None,
    }
}

fn faulty_share(fault: ConfigFault, version: Version, shares: &Table) -> Option<&str>
    ensures { option_map (λ key. key.now) result ≡ find (λ key. is_some (spec.key_in_share fault version (table_view shares.now) key)) (keys_in (table_view shares.now)) }
{
    for (name, _) in shares {
        if key_in_share(fault, version, shares, name.as_str()).is_some() {
            return Some(name.as_str());
        }
    }
    None
}

/// The place in a queue's share of the label of this name.
#[tactic(auto, unfolding(crate::specs::Places::place_in_share))]
fn place_in_share<'t>(
    fault: ConfigFault,
    place: LentPlace<'t>,
    version: Version,
    shares: &'t Table,
    name: &'t str,
) -> Option<LentPlace<'t>>
    ensures { option_map lent_of result ≡ spec.place_in_share fault (lent_of place.entry) version (table_view shares.now) name.now }
{
    let share = table_at(shares, name)?;
    let key = share_key(fault, version, share)?;
    let mut place = place;
    place.label = Some(LentValue::Text(name));
    Some(at_key(fault, place, share, key))
}

/// The place in a queue's shares of labels, by their names.
#[tactic(auto, unfolding(crate::specs::Places::place_in_shares))]
fn place_in_shares<'t>(
    fault: ConfigFault,
    version: Version,
    row: u64,
    table: &'t Table,
) -> Option<LentPlace<'t>>
    ensures { option_map lent_of result ≡ spec.place_in_shares fault version row (table_view table.now) }
{
    let shares = table_at(table, "label")?;
    if let Some(place) = place_without_table(fault, row, table, shares) {
        return Some(place);
    }
    let name = faulty_share(fault, version, shares)?;
    place_in_share(fault, row_of_queue(row, table), version, shares, name)
}

#[tactic(auto, unfolding(crate::specs::Places::place_in_queue))]
fn place_in_queue<'t>(
    alloc: Global,
    fault: ConfigFault,
    version: Version,
    row: u64,
    table: &'t Table,
) -> Result<Option<LentPlace<'t>>, AllocError>
    ensures { IfOk result (λ p. option_map lent_of p ≡ spec.place_in_queue fault version row (table_view table.now)) }
{
    match queue_key(alloc, fault, version, table)? {
        Some(key) => Ok(Some(at_queue_key(fault, row, table, key))),
        None => Ok(place_in_shares(fault, version, row, table)),
    }
}

fn place_in_row<'t>(
    alloc: Global,
    fault: ConfigFault,
    version: Version,
    kind: RowKind,
    row: u64,
    value: &'t Value,
) -> Result<Option<LentPlace<'t>>, AllocError>
    ensures { IfOk result (λ p. option_map lent_of p ≡ spec.place_in_row fault version kind row (view value.now)) }
{
    let Some(table) = value.as_table() else {
        return Ok(None);
    };
    match kind {
        RowKind::Label => Ok(place_in_label(fault, row, table)),
        RowKind::Queue => place_in_queue(alloc, fault, version, row, table),
    }
}

fn place_in_rows<'t>(
    alloc: Global,
    fault: ConfigFault,
    version: Version,
    kind: RowKind,
    values: &'t [Value],
) -> Result<Option<LentPlace<'t>>, AllocError>
    ensures { IfOk result (λ p. option_map lent_of p ≡ first_from (spec.place_in_row fault version kind) 1 (values_in (items_view values.now))) }
{
    for i in 0..values.len() {
        let number = i as u64 + 1;
        let place = place_in_row(alloc, fault, version, kind, number, &values[i])?;
        if place.is_some() {
            return Ok(place);
        }
    }
    Ok(None)
}

/// The place in the rows of a kind.
#[tactic(auto, unfolding(crate::specs::Places::place_in_kind))]
fn place_in_kind<'t>(
    alloc: Global,
    fault: ConfigFault,
    kind: RowKind,
    table: &'t Table,
) -> Result<Option<LentPlace<'t>>, AllocError>
    ensures { IfOk result (λ p. option_map lent_of p ≡ spec.place_in_kind fault kind (table_view table.now)) }
{
    let Some(value) = find(table, kind.word()) else {
        return Ok(None);
    };
    match value.as_array() {
        Some(values) => place_in_rows(alloc, fault, any_version(version_at(table)), kind, values),
        None => Ok(None),
    }
}

/// The first place of a fault that a single table or value has: the top level, the labels, and the
/// queues, each followed by its shares of labels.
#[tactic(auto, unfolding(crate::specs::Places::place_in_tables))]
pub(crate) fn place_in_tables<'t>(
    alloc: Global,
    fault: ConfigFault,
    table: &'t Table,
) -> Result<Option<LentPlace<'t>>, AllocError>
    ensures { IfOk result (λ p. option_map lent_of p ≡ spec.place_in_tables fault (table_view table.now)) }
{
    if let Some(place) = place_at_top(fault, table) {
        return Ok(Some(place));
    }
    if let Some(place) = place_in_kind(alloc, fault, RowKind::Label, table)? {
        return Ok(Some(place));
    }
    place_in_kind(alloc, fault, RowKind::Queue, table)
}

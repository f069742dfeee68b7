//! At which key of a table a fault is: the first of them in the order of their bytes.

ghost use Rattle.std.specs.Prelude.{◌≡◌, IfOk, map, option_map};
ghost use Rattle.std.specs.List.{list_all};
ghost use Rattle.toml.specs.View.{table_view, view, items_view};
ghost use Rattle.ynl_resource.specs.Refusals.{first_that_holds};
ghost use Rattle.ynl_config.specs.Tables.{values_in};
ghost use Rattle.ynl_config.specs.Places.{is_name, is_table};
ghost use Rattle.ynl_config.specs.Places as spec;
ghost use Rattle.ynl_config.specs.KeyTables.{has_at};
ghost use Rattle.ynl_config.specs.Readings.{number_at};

use crate::faults::ConfigFault;
use crate::fields::{
    find, flag_at, label_at, name_at, percent_at, stopped_at, text_at, version_at,
};
use crate::keys::{KeyFault, TableKind, faulty_key, unknown_key};
use crate::queues::access_at;
use crate::values::{Version, number_of};
use std::alloc::{AllocError, Global};
use toml::{Table, Value};
use ynl_resource::{Hundredths, MOST_CLOCK, MOST_MEMORY, MOST_VCORES};

/// How the value at a key is read.
#[derive(Clone, Copy)]
pub(crate) enum Reading {
    Version,
    /// An array of tables.
    Rows,
    /// A table of a queue's shares of labels.
    Shares,
    Text,
    Name,
    Flag,
    State,
    Label,
    /// A number from 1 to this.
    Number(u64),
    /// A percentage, at least so many of the version's units.
    Percent(u64),
}

const TOP_KEYS: [(&str, Reading); 7] = [
    ("containers-per-heartbeat", Reading::Number(1000)),
    ("default-clock-limit", Reading::Number(MOST_CLOCK)),
    ("label", Reading::Rows),
    ("maximum-allocation-memory", Reading::Number(MOST_MEMORY)),
    ("maximum-allocation-vcores", Reading::Number(MOST_VCORES)),
    ("queue", Reading::Rows),
    ("version", Reading::Version),
];

const LABEL_KEYS: [(&str, Reading); 3] = [
    ("clock-limit", Reading::Number(MOST_CLOCK)),
    ("exclusive", Reading::Flag),
    ("name", Reading::Name),
];

const SHARE_KEYS: [(&str, Reading); 2] = [
    ("capacity", Reading::Percent(0)),
    ("maximum-capacity", Reading::Percent(0)),
];

/// Those of a queue but for the labels that it may use, which come first.
const QUEUE_KEYS: [(&str, Reading); 10] = [
    ("capacity", Reading::Percent(0)),
    ("default-node-label-expression", Reading::Label),
    ("label", Reading::Shares),
    ("maximum-am-resource-percent", Reading::Percent(0)),
    ("maximum-applications", Reading::Number(1000000)),
    ("maximum-capacity", Reading::Percent(0)),
    ("minimum-user-limit-percent", Reading::Percent(1)),
    ("path", Reading::Text),
    ("state", Reading::State),
    ("user-limit-factor", Reading::Number(10000)),
];

/// Whether a reading has the fault.
fn has<T: Drop>(fault: ConfigFault, reading: Result<T, ConfigFault>) -> bool
    ensures { result ≡ spec.has fault reading }
{
    match reading {
        Ok(_) => false,
        Err(other) => fault.is(other),
    }
}

fn are_tables(values: &[Value]) -> bool
    ensures { result ≡ list_all is_table (values_in (items_view values.now)) }
{
    for i in 0..values.len() {
        if values[i].as_table().is_none() {
            return false;
        }
    }
    true
}

/// Whether an array of tables stands at the key, if anything does.
#[tactic(auto, unfolding(crate::specs::Places::rows_at))]
fn rows_at(table: &Table, key: &str) -> Result<(), ConfigFault>
    ensures { result ≡ spec.rows_at key.now (table_view table.now) }
{
    let Some(value) = find(table, key) else {
        return Ok(());
    };
    match value.as_array() {
        Some(values) if are_tables(values) => Ok(()),
        _ => Err(ConfigFault::WrongKind),
    }
}

fn are_names(table: &Table) -> bool
    ensures { result ≡ list_all is_name (spec.keys_in (table_view table.now)) }
{
    match faulty_key(KeyFault::NoName, table) {
        Some(_) => false,
        None => true,
    }
}

/// Whether a table stands at `label` whose keys are names, if anything does.
#[tactic(auto, unfolding(crate::specs::Places::names_at))]
fn names_at(table: &Table) -> Result<(), ConfigFault>
    ensures { result ≡ spec.names_at (table_view table.now) }
{
    let Some(value) = find(table, "label") else {
        return Ok(());
    };
    match value.as_table() {
        Some(shares) if are_names(shares) => Ok(()),
        Some(_) => Err(ConfigFault::BadLabel),
        None => Err(ConfigFault::WrongKind),
    }
}

/// Whether a number from 1 to `high` is asked for at the key, and has the fault.
#[tactic(auto, unfolding(crate::specs::Readings::number_at))]
fn has_number(fault: ConfigFault, table: &Table, key: &str, high: u64) -> bool
    ensures { result ≡ spec.has fault (number_at key.now 1 high high (table_view table.now)) }
{
    match find(table, key) {
        Some(value) => has(fault, number_of(value, 1, high)),
        None => false,
    }
}

/// Whether the value at the key has the fault.
fn has_at(fault: ConfigFault, version: Version, table: &Table, key: &str, reading: Reading) -> bool
    ensures { result ≡ has_at fault version (table_view table.now) key.now reading }
{
    match reading {
        Reading::Version => has(fault, version_at(table)),
        Reading::Rows => has(fault, rows_at(table, key)),
        Reading::Shares => has(fault, names_at(table)),
        Reading::Text => has(fault, text_at(table, key)),
        Reading::Name => has(fault, name_at(table, key)),
        Reading::Flag => has(fault, flag_at(table, key, true)),
        Reading::State => has(fault, stopped_at(table, key)),
        Reading::Label => has(fault, label_at(table, key)),
        Reading::Number(high) => has_number(fault, table, key, high),
        Reading::Percent(low) => {
            has(
                fault,
                percent_at(table, key, version, low, Hundredths::NOTHING),
            )
        }
    }
}

/// The first of the keys at which the fault is.
fn first_key(
    fault: ConfigFault,
    version: Version,
    table: &Table,
    keys: &[(&'static str, Reading)],
) -> Option<&'static str>
    ensures { option_map (λ key. key.now) result
        ≡ first_that_holds (map (λ key. (key.0.now, has_at fault version (table_view table.now) key.0.now key.1)) keys.now) }
{
    for i in 0..keys.len() {
        let (key, reading) = keys[i];
        if has_at(fault, version, table, key, reading) {
            return Some(key);
        }
    }
    None
}

/// The key of a table of this kind at which the fault is.
fn key_with<'t>(
    kind: TableKind,
    fault: ConfigFault,
    version: Version,
    table: &'t Table,
    keys: &[(&'static str, Reading)],
) -> Option<&'t str>
    ensures { option_map (λ key. key.now) result ≡ spec.key_with fault (spec.unknown_key kind (table_view table.now))
        (map (λ key. (key.0.now, has_at fault version (table_view table.now) key.0.now key.1)) keys.now) }
{
    match fault {
        ConfigFault::UnknownKey => unknown_key(kind, table),
        _ => first_key(fault, version, table, keys),
    }
}

/// The key of the whole text at which the fault is.
pub(crate) fn top_key<'t>(fault: ConfigFault, table: &'t Table) -> Option<&'t str>
    ensures { option_map (λ key. key.now) result ≡ spec.top_key fault (table_view table.now) }
{
    // None of them is a percentage, so any version will do.
    key_with(TableKind::Top, fault, Version::Whole, table, &TOP_KEYS)
}

/// The key of a label's row at which the fault is.
#[tactic(auto, unfolding(crate::specs::Places::label_keys))]
pub(crate) fn label_key<'t>(fault: ConfigFault, table: &'t Table) -> Option<&'t str>
    ensures { option_map (λ key. key.now) result ≡ spec.label_key fault (table_view table.now) }
{
    key_with(TableKind::Label, fault, Version::Whole, table, &LABEL_KEYS)
}

/// The key of a queue's share of a label at which the fault is.
pub(crate) fn share_key<'t>(
    fault: ConfigFault,
    version: Version,
    table: &'t Table,
) -> Option<&'t str>
    ensures { option_map (λ key. key.now) result ≡ spec.share_key fault version (table_view table.now) }
{
    key_with(TableKind::LabelCapacity, fault, version, table, &SHARE_KEYS)
}

fn faulty_queue_key(
    alloc: Global,
    fault: ConfigFault,
    version: Version,
    table: &Table,
) -> Result<Option<&'static str>, AllocError>
    ensures { IfOk result (λ found. option_map (λ key. key.now) found ≡ first_that_holds (spec.queue_keys fault version (table_view table.now))) }
{
    if has(fault, access_at(alloc, table)?) {
        return Ok(Some("accessible-node-labels"));
    }
    Ok(first_key(fault, version, table, &QUEUE_KEYS))
}

/// The key of a queue's row at which the fault is.
pub(crate) fn queue_key<'t>(
    alloc: Global,
    fault: ConfigFault,
    version: Version,
    table: &'t Table,
) -> Result<Option<&'t str>, AllocError>
    ensures { IfOk result (λ found. option_map (λ key. key.now) found ≡ spec.queue_key fault version (table_view table.now)) }
{
    match fault {
        ConfigFault::UnknownKey => Ok(unknown_key(TableKind::Queue, table)),
        _ => faulty_queue_key(alloc, fault, version, table),
    }
}

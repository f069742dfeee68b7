//! The labels of a configuration.

ghost use Rattle.std.specs.Prelude.{◌≡◌, IfOk, map};
ghost use Rattle.toml.specs.View.{table_view, view, items_view};
ghost use Rattle.ynl_config.specs.Earliest.{all_of, items_in};
ghost use Rattle.ynl_config.specs.Tables.{in_table, label_in, values_in};
ghost use Rattle.ynl_config.specs.Tables as spec;

use crate::faults::ConfigFault;
use crate::fields::{find, flag_at, name_at, number_at};
use crate::keys::{TableKind, known_keys};
use crate::together::{and_one, both};
use std::alloc::{AllocError, Global};
use toml::{Table, Value};
use ynl_model::LabelRow;
use ynl_resource::MOST_CLOCK;

fn label_in(table: &Table) -> Result<LabelRow, ConfigFault>
    ensures { result ≡ spec.label_in (table_view table.now) }
{
    let keys = known_keys(TableKind::Label, table);
    let name = name_at(table, "name");
    let exclusive = flag_at(table, "exclusive", true);
    let limit = number_at(table, "clock-limit", 1, MOST_CLOCK, MOST_CLOCK);
    match both(keys, both(name, both(exclusive, limit))) {
        Ok((_, (name, (exclusive, limit)))) => Ok(LabelRow {
            name,
            exclusive,
            limit,
        }),
        Err(fault) => Err(fault),
    }
}

fn label_of(value: &Value) -> Result<LabelRow, ConfigFault>
    ensures { result ≡ in_table label_in (view value.now) }
{
    match value.as_table() {
        Some(table) => label_in(table),
        None => Err(ConfigFault::WrongKind),
    }
}

fn labels_of(
    alloc: Global,
    values: &[Value],
) -> Result<Result<Vec<LabelRow>, ConfigFault>, AllocError>
    ensures { IfOk result (λ rows. items_in rows ≡ all_of (map (in_table label_in) (values_in (items_view values.now)))) }
{
    let mut rows = Ok(Vec::new(alloc));
    for value in values {
        rows = and_one(rows, label_of(value))?;
    }
    Ok(rows)
}

/// The labels, in the order of the text.
#[tactic(auto, unfolding(crate::specs::Tables::labels_at))]
pub(crate) fn labels_at(
    alloc: Global,
    table: &Table,
) -> Result<Result<Vec<LabelRow>, ConfigFault>, AllocError>
    ensures { IfOk result (λ rows. items_in rows ≡ spec.labels_at (table_view table.now)) }
{
    match find(table, "label") {
        Some(value) => match value.as_array() {
            Some(values) => labels_of(alloc, values),
            None => Ok(Err(ConfigFault::WrongKind)),
        },
        None => Ok(Ok(Vec::new(alloc))),
    }
}

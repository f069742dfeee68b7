//! Values as they are told, and places as they are kept.

ghost use Rattle.std.specs.Prelude.{◌≡◌, IfOk, option_map};
ghost use Rattle.toml.specs.View.{table_view, view};
ghost use Rattle.ynl_config.specs.Places.{told_of, place_of};
ghost use Rattle.ynl_config.specs.Places as spec;
ghost use Rattle.ynl_config.specs.Lent.{shown, lent_of, found_of};

use crate::fields::find;
use crate::lent::{LentPlace, LentValue};
use crate::places::{Place, ToldValue};
use std::alloc::{AllocError, Global};
use toml::{Table, Value};

/// The most bytes of a text that is told.
const MOST_TOLD: usize = 256;

/// The value, if it is a text or an integer.
#[tactic(auto, unfolding(crate::specs::Places::told))]
fn lent(value: &Value) -> Option<LentValue<'_>>
    ensures { shown result ≡ spec.told (view value.now) }
{
    if let Some(text) = value.as_str() {
        return Some(LentValue::Text(text));
    }
    match value.as_integer() {
        Some(integer) => Some(LentValue::Integer(integer)),
        None => None,
    }
}

/// What is told of the value at a key.
pub(crate) fn lent_at<'t>(table: &'t Table, key: &str) -> Option<LentValue<'t>>
    ensures { shown result ≡ spec.told_at key.now (table_view table.now) }
{
    match find(table, key) {
        Some(value) => lent(value),
        None => None,
    }
}

/// The text as it is kept, unless it is too long.
fn kept_text(alloc: Global, text: &str) -> Result<Option<ToldValue>, AllocError>
    ensures { IfOk result (λ told. option_map told_of told ≡ spec.told_text text.now) }
{
    if text.len() > MOST_TOLD {
        return Ok(None);
    }
    let text = String::from_str(alloc, text)?;
    Ok(Some(ToldValue::Text(text)))
}

/// The value as it is kept.
fn kept(alloc: Global, value: Option<LentValue<'_>>) -> Result<Option<ToldValue>, AllocError>
    ensures { IfOk result (λ told. option_map told_of told ≡ shown value.entry) }
{
    match value {
        Some(LentValue::Text(text)) => kept_text(alloc, text),
        Some(LentValue::Path(path)) => {
            let text = path.text(alloc)?;
            kept_text(alloc, text.as_str())
        }
        Some(LentValue::Integer(integer)) => Ok(Some(ToldValue::Integer(integer))),
        Some(LentValue::Count(count)) => Ok(Some(ToldValue::Count(count))),
        None => Ok(None),
    }
}

fn kept_place(alloc: Global, place: LentPlace<'_>) -> Result<Place, AllocError>
    ensures { IfOk result (λ p. place_of p ≡ lent_of place.entry) }
{
    let queue = kept(alloc, place.queue)?;
    let label = kept(alloc, place.label)?;
    let key = kept(alloc, place.key)?;
    let value = kept(alloc, place.value)?;
    Ok(Place {
        table: place.table,
        row: place.row,
        queue,
        label,
        key,
        value,
        line: None,
        capacity: place.capacity,
        maximum: place.maximum,
        sum: place.sum,
    })
}

/// The place that was found, as it is kept.
pub(crate) fn keep(alloc: Global, found: Option<LentPlace<'_>>) -> Result<Place, AllocError>
    ensures { IfOk result (λ p. place_of p ≡ found_of found.entry) }
{
    match found {
        Some(place) => kept_place(alloc, place),
        None => Ok(Place::nowhere()),
    }
}

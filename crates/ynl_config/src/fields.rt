//! What stands at the keys of a table.

ghost use Rattle.std.specs.Prelude.{◌≡◌, ◌≤◌, IfOk, option_map};
ghost use Rattle.toml.specs.Data.{get_member};
ghost use Rattle.toml.specs.View.{table_view, view};
ghost use Rattle.ynl_config.specs.Readings.{Gives};
ghost use Rattle.ynl_config.specs.Readings as spec;

use crate::faults::ConfigFault;
use crate::together::both;
use crate::values::{
    Version, flag_of, label_of, name_of, natural, number_of, percent_of, stopped_of, text_of,
    version_of,
};
use toml::{Table, Value};
use ynl_resource::{Hundredths, Label, MOST_MEMORY, MOST_VCORES, Name, Size};

/// The value at a key.
pub(crate) fn find<'t>(table: &'t Table, key: &str) -> Option<&'t Value>
    ensures { option_map (λ v. view v.now) result ≡ get_member key.now (table_view table.now) }
{
    table.get(key)
}

/// A text that has to be there.
#[tactic(auto, unfolding(crate::specs::Readings::text_at))]
pub(crate) fn text_at<'t>(table: &'t Table, key: &str) -> Result<&'t str, ConfigFault>
    ensures { Gives (λ s. s.now) result (spec.text_at key.now (table_view table.now)) }
{
    match find(table, key) {
        Some(value) => text_of(value),
        None => Err(ConfigFault::MissingKey),
    }
}

/// A truth value.
#[tactic(auto, unfolding(crate::specs::Readings::flag_at))]
pub(crate) fn flag_at(table: &Table, key: &str, given: bool) -> Result<bool, ConfigFault>
    ensures { result ≡ spec.flag_at key.now given (table_view table.now) }
{
    match find(table, key) {
        Some(value) => flag_of(value),
        None => Ok(given),
    }
}

/// A number from `low` to `high`.
#[tactic(auto, unfolding(crate::specs::Readings::number_at))]
pub(crate) fn number_at(
    table: &Table,
    key: &str,
    low: u64,
    high: u64,
    given: u64,
) -> Result<u64, ConfigFault>
    requires low { low ≤ given }
    requires high { given ≤ high }
    ensures value { result ≡ spec.number_at key.now low high given (table_view table.now) }
    ensures low { IfOk result (λ n. low ≤ n) }
    ensures high { IfOk result (λ n. n ≤ high) }
{
    match find(table, key) {
        Some(value) => number_of(value, low, high),
        None => Ok(given),
    }
}

/// A number from 1 to `high`.
#[tactic(auto, unfolding(crate::specs::Readings::number_at))]
pub(crate) fn count_at(table: &Table, key: &str, high: u32, given: u32) -> Result<u32, ConfigFault>
    requires low { 1 ≤ given }
    requires high { given ≤ high }
    ensures value { result ≡ spec.number_at key.now 1 high given (table_view table.now) }
    ensures high { IfOk result (λ n. n ≤ high) }
{
    let number = number_at(table, key, 1, u64::from(high), u64::from(given))?;
    Ok(number as u32)
}

/// A number from 1 to `high`.
#[tactic(auto, unfolding(crate::specs::Readings::number_at))]
pub(crate) fn factor_at(table: &Table, key: &str, high: u16, given: u16) -> Result<u16, ConfigFault>
    requires low { 1 ≤ given }
    requires high { given ≤ high }
    ensures { result ≡ spec.number_at key.now 1 high given (table_view table.now) }
{
    let number = count_at(table, key, u32::from(high), u32::from(given))?;
    Ok(number as u16)
}

/// A percentage, at least `low` of the version's units.
#[tactic(auto, unfolding(crate::specs::Readings::percent_at))]
pub(crate) fn percent_at(
    table: &Table,
    key: &str,
    version: Version,
    low: u64,
    given: Hundredths,
) -> Result<Hundredths, ConfigFault>
    ensures { result ≡ spec.percent_at key.now version low given (table_view table.now) }
{
    match find(table, key) {
        Some(value) => percent_of(value, version, low),
        None => Ok(given),
    }
}

/// A label's name, which has to be there.
#[tactic(auto, unfolding(crate::specs::Readings::name_at))]
pub(crate) fn name_at(table: &Table, key: &str) -> Result<Name, ConfigFault>
    ensures { result ≡ spec.name_at key.now (table_view table.now) }
{
    let text = text_at(table, key)?;
    name_of(text)
}

/// A label; DEFAULT where none is given.
#[tactic(auto, unfolding(crate::specs::Readings::label_at))]
pub(crate) fn label_at(table: &Table, key: &str) -> Result<Label, ConfigFault>
    ensures { result ≡ spec.label_at key.now (table_view table.now) }
{
    match find(table, key) {
        Some(value) => {
            let text = text_of(value)?;
            label_of(text)
        }
        None => Ok(Label::Unlabelled),
    }
}

/// Whether a queue is stopped; it is not where no state is given.
#[tactic(auto, unfolding(crate::specs::Readings::stopped_at))]
pub(crate) fn stopped_at(table: &Table, key: &str) -> Result<bool, ConfigFault>
    ensures { result ≡ spec.stopped_at key.now (table_view table.now) }
{
    match find(table, key) {
        Some(value) => {
            let text = text_of(value)?;
            stopped_of(text)
        }
        None => Ok(false),
    }
}

/// The version, which has to be there.
#[tactic(auto, unfolding(crate::specs::Readings::version_at))]
pub(crate) fn version_at(table: &Table) -> Result<Version, ConfigFault>
    ensures { result ≡ spec.version_at (table_view table.now) }
{
    let integer = match find(table, "version") {
        Some(value) => value.as_integer().ok_or(ConfigFault::WrongKind)?,
        None => return Err(ConfigFault::MissingKey),
    };
    let number = natural(integer).ok_or(ConfigFault::Version)?;
    version_of(number)
}

/// The largest request.
#[tactic(auto, unfolding(crate::specs::Readings::size_at))]
pub(crate) fn size_at(table: &Table) -> Result<Size, ConfigFault>
    ensures { result ≡ spec.size_at (table_view table.now) }
{
    let memory = number_at(
        table,
        "maximum-allocation-memory",
        1,
        MOST_MEMORY,
        MOST_MEMORY,
    );
    let vcores = number_at(
        table,
        "maximum-allocation-vcores",
        1,
        MOST_VCORES,
        MOST_VCORES,
    );
    let (memory, vcores) = both(memory, vcores)?;
    match Size::new(memory, vcores) {
        Some(size) => Ok(size),
        None => unreachable!(),
    }
}

//! What a value of a table says.

ghost use Rattle.std.specs.Prelude.{◌≡◌, ◌≤◌, IfOk};
ghost use Rattle.toml.specs.View.{view};
ghost use Rattle.ynl_config.specs.Readings.{natural, unit, Gives};
ghost use Rattle.ynl_config.specs.Readings as spec;

use crate::faults::ConfigFault;
use toml::Value;
use ynl_resource::{Hundredths, Label, Name};

/// How a configuration counts percentages: version 1 in whole percents, version 2 in hundredths of
/// a percent.
#[derive(Clone, Copy)]
pub(crate) enum Version {
    Whole,
    Hundredth,
}

impl Version {
    /// So many hundredths of a percent is one that the text writes.
    fn unit(self) -> u64
        ensures value { result ≡ unit self }
        ensures small { result ≤ 100 }
    {
        match self {
            Version::Whole => 100,
            Version::Hundredth => 1,
        }
    }
}

/// The version of this number.
pub(crate) fn version_of(number: u64) -> Result<Version, ConfigFault>
    ensures { result ≡ spec.version_of number }
{
    match number {
        1 => Ok(Version::Whole),
        2 => Ok(Version::Hundredth),
        _ => Err(ConfigFault::Version),
    }
}

/// The integer, if it is at least 0.
pub(crate) fn natural(integer: i64) -> Option<u64>
    ensures { result ≡ natural integer }
{
    if integer < 0 {
        None
    } else {
        Some(integer as u64)
    }
}

/// The text that the value is.
#[tactic(auto, unfolding(crate::specs::Readings::text_of))]
pub(crate) fn text_of(value: &Value) -> Result<&str, ConfigFault>
    ensures { Gives (λ s. s.now) result (spec.text_of (view value.now)) }
{
    value.as_str().ok_or(ConfigFault::WrongKind)
}

/// The truth value that the value is.
#[tactic(auto, unfolding(crate::specs::Readings::flag_of))]
pub(crate) fn flag_of(value: &Value) -> Result<bool, ConfigFault>
    ensures { result ≡ spec.flag_of (view value.now) }
{
    value.as_bool().ok_or(ConfigFault::WrongKind)
}

fn within(low: u64, high: u64, number: u64) -> Result<u64, ConfigFault>
    ensures value { result ≡ spec.within low high number }
    ensures low { IfOk result (λ n. low ≤ n) }
    ensures high { IfOk result (λ n. n ≤ high) }
{
    if low <= number && number <= high {
        Ok(number)
    } else {
        Err(ConfigFault::Range)
    }
}

/// The number that the value is, from `low` to `high`.
#[tactic(auto, unfolding(crate::specs::Readings::number_of))]
pub(crate) fn number_of(value: &Value, low: u64, high: u64) -> Result<u64, ConfigFault>
    ensures value { result ≡ spec.number_of low high (view value.now) }
    ensures low { IfOk result (λ n. low ≤ n) }
    ensures high { IfOk result (λ n. n ≤ high) }
{
    let integer = value.as_integer().ok_or(ConfigFault::WrongKind)?;
    let number = natural(integer).ok_or(ConfigFault::Range)?;
    within(low, high, number)
}

/// The percentage that the value is, at least `low` of the version's units.
#[tactic(auto, unfolding(crate::specs::Readings::percent_of))]
pub(crate) fn percent_of(
    value: &Value,
    version: Version,
    low: u64,
) -> Result<Hundredths, ConfigFault>
    ensures { result ≡ spec.percent_of version low (view value.now) }
{
    let number = number_of(value, low, 10000)?;
    Hundredths::new(number * version.unit()).ok_or(ConfigFault::Range)
}

/// The name of a label that the text is.
#[tactic(auto, unfolding(crate::specs::Readings::name_of))]
pub(crate) fn name_of(text: &str) -> Result<Name, ConfigFault>
    ensures { result ≡ spec.name_of text.now }
{
    match Name::parse(text) {
        Ok(name) => Ok(name),
        Err(_) => Err(ConfigFault::BadLabel),
    }
}

/// The label that the text is; the empty text is DEFAULT.
#[tactic(auto, unfolding(crate::specs::Readings::label_of))]
pub(crate) fn label_of(text: &str) -> Result<Label, ConfigFault>
    ensures { result ≡ spec.label_of text.now }
{
    match Label::parse(text) {
        Ok(label) => Ok(label),
        Err(_) => Err(ConfigFault::BadLabel),
    }
}

/// Whether a queue of this state is stopped.
#[tactic(auto, unfolding(crate::specs::Readings::stopped_of))]
pub(crate) fn stopped_of(text: &str) -> Result<bool, ConfigFault>
    ensures { result ≡ spec.stopped_of text.now }
{
    match text {
        "RUNNING" => Ok(false),
        "STOPPED" => Ok(true),
        _ => Err(ConfigFault::Range),
    }
}

//! From a text to the configuration.

ghost use Rattle.std.specs.Prelude.{◌≡◌, ◌<◌, length, IfOk, IfErr, IsErr, Ok, Some, None, option_map, true};
ghost use Rattle.std.specs.Result.{IsOk};
ghost use Rattle.toml.specs.Errors.{IsMemory};
ghost use Rattle.toml.specs.View.{table_view};
ghost use Rattle.ynl_model.specs.Accepted.{is_accepted};
ghost use Rattle.ynl_config.specs.Meaning as spec;
ghost use Rattle.ynl_config.specs.Misplaced.{meant};

use crate::faults::ConfigFault;
use crate::written::{Written, written_in};
use std::alloc::{AllocError, Global};
use toml::Table;
use toml::de::Error;
use ynl_queues::Config;
use ynl_queues::labels::Labels;

/// A text has at most so many bytes.
pub(crate) const MOST_BYTES: usize = 1_048_576;

/// What reading TOML told: the table, or that the bytes are the text of none. It takes no memory, so
/// want of memory is told only where reading met it.
fn found(read: Result<Table, Error>) -> Result<Option<Table>, AllocError>
    ensures table { IfOk read (λ table. result ≡ Ok (Some table)) }
    ensures none { IfErr read (λ e. ¬ IsMemory e → result ≡ Ok None) }
    ensures memory { IfErr read (λ e. IsMemory e → IsErr result) }
{
    match read {
        Ok(table) => Ok(Some(table)),
        Err(e) => {
            if e.is_memory() {
                return Err(AllocError);
            }
            Ok(None)
        }
    }
}

/// The table that the bytes are, if they are the text of one.
pub(crate) fn parse(alloc: Global, bytes: &[u8]) -> Result<Option<Table>, AllocError>
    ensures { IfOk result (λ found. option_map table_view found ≡ spec.reading bytes.now) }
{
    found(toml::table_from_slice(alloc, bytes))
}

/// The configuration of what is written.
#[tactic(auto, unfolding(crate::specs::Meaning::built))]
fn build(alloc: Global, written: Written) -> Result<Result<Config, ConfigFault>, AllocError>
    ensures { IfOk result (λ config. config ≡ spec.built written) }
{
    let numbers = written.numbers;
    let labels = match Labels::build(written.labels, numbers.default_limit) {
        Ok(labels) => labels,
        Err(fault) => return Ok(Err(ConfigFault::from(fault))),
    };
    let built = Config::build(
        alloc,
        labels,
        written.queues,
        numbers.containers_per_heartbeat,
        numbers.maximum_allocation,
    )?;
    match built {
        Ok(config) => Ok(Ok(config)),
        Err(fault) => Ok(Err(ConfigFault::from(fault))),
    }
}

/// The configuration that a table means.
#[tactic(auto, unfolding(crate::specs::Meaning::built))]
pub(crate) fn config_in(
    alloc: Global,
    table: &Table,
) -> Result<Result<Config, ConfigFault>, AllocError>
    ensures { IfOk result (λ read. read ≡ meant (table_view table.now)) }
{
    match written_in(alloc, table)? {
        Ok(written) => build(alloc, written),
        Err(fault) => Ok(Err(fault)),
    }
}

/// The configuration that a text means, or its first fault.
///
/// The text is TOML of at most 1,048,576 bytes. A fault is told only where none before it in the
/// order of [`ConfigFault`] holds anywhere in the text. Percentages are whole in version 1, and
/// hundredths of a percent in version 2. What is read is accepted: its numbers are in range, and it has
/// no fault. That a text is too long is told whatever memory there is.
#[tactic(auto, unfolding(crate::specs::Meaning::config_of))]
pub fn read_config(alloc: Global, text: &[u8]) -> Result<Result<Config, ConfigFault>, AllocError>
    ensures meaning { IfOk result (λ read. read ≡ spec.config_of text.now) }
    ensures accepted { IfOk result (λ read. IfOk read (λ config. is_accepted config ≡ true)) }
    ensures sure { spec.most_bytes < length text.now → IsOk result }
{
    if text.len() > MOST_BYTES {
        return Ok(Err(ConfigFault::Size));
    }
    let Some(table) = parse(alloc, text)? else {
        return Ok(Err(ConfigFault::Syntax));
    };
    config_in(alloc, &table)
}

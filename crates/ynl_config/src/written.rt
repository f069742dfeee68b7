//! All that a configuration text says.

ghost use Rattle.std.specs.Prelude.{◌≡◌, IfOk};
ghost use Rattle.toml.specs.View.{table_view};
ghost use Rattle.ynl_config.specs.Earliest.{both, made};
ghost use Rattle.ynl_config.specs.Seen.{rows_view, parts_view};
ghost use Rattle.ynl_config.specs.Tables as spec;

use crate::faults::ConfigFault;
use crate::fields::{count_at, number_at, size_at, version_at};
use crate::keys::{TableKind, known_keys};
use crate::label_rows::labels_at;
use crate::queues::queues_at;
use crate::together::both;
use crate::values::Version;
use std::alloc::{AllocError, Global};
use std::marker::Model;
use toml::Table;
use ynl_model::LabelRow;
use ynl_queues::WrittenQueue;
use ynl_resource::{MOST_CLOCK, Size};

/// The numbers that stand beside labels and queues: the most containers that a heartbeat places,
/// the largest request, and how far the clock of DEFAULT goes.
#[derive(Clone, Copy)]
pub(crate) struct Numbers {
    pub(crate) containers_per_heartbeat: u32,
    pub(crate) maximum_allocation: Size,
    pub(crate) default_limit: u64,
}

/// A configuration as it is written. Its numbers are in their ranges, and its labels have names.
#[derive(Drop)]
pub(crate) struct Written {
    pub(crate) numbers: Numbers,
    pub(crate) labels: Vec<LabelRow>,
    pub(crate) queues: Vec<WrittenQueue>,
}

impl Model for Written {
    ghost use Rattle.ynl_config.specs.Tables.{WrittenConfig};

    ghost Value = { WrittenConfig };

    ghost view = { λ w. record { numbers = w.numbers; labels = w.labels.items; queues = w.queues.items } };
}

fn numbers_in(table: &Table) -> Result<Numbers, ConfigFault>
    ensures { result ≡ spec.numbers_in (table_view table.now) }
{
    let heartbeat = count_at(table, "containers-per-heartbeat", 1000, 1);
    let size = size_at(table);
    let limit = number_at(table, "default-clock-limit", 1, MOST_CLOCK, MOST_CLOCK);
    match both(heartbeat, both(size, limit)) {
        Ok((containers_per_heartbeat, rest)) => Ok(Numbers {
            containers_per_heartbeat,
            maximum_allocation: rest.0,
            default_limit: rest.1,
        }),
        Err(fault) => Err(fault),
    }
}

/// The version; where it has a fault, any will do.
pub(crate) fn any_version(version: Result<Version, ConfigFault>) -> Version
    ensures { result ≡ spec.any_version version }
{
    match version {
        Ok(version) => version,
        Err(_) => Version::Whole,
    }
}

/// What the top table says: its keys, the version, and the rest.
type Parts = ((), (Version, (Numbers, (Vec<LabelRow>, Vec<WrittenQueue>))));

fn written_of(parts: Parts) -> Written
    ensures { result ≡ spec.written_of (parts_view parts) }
{
    let (_, (_, (numbers, (labels, queues)))) = parts;
    Written {
        numbers,
        labels,
        queues,
    }
}

/// The labels and the queues.
fn rows_in(
    alloc: Global,
    table: &Table,
    version: Version,
) -> Result<Result<(Vec<LabelRow>, Vec<WrittenQueue>), ConfigFault>, AllocError>
    ensures { IfOk result (λ read. made rows_view read ≡ both (spec.labels_at (table_view table.now)) (spec.queues_at version (table_view table.now))) }
{
    let labels = labels_at(alloc, table)?;
    let queues = queues_at(alloc, table, version)?;
    Ok(both(labels, queues))
}

/// All that the text says, or the earliest fault of its tables and values.
pub(crate) fn written_in(
    alloc: Global,
    table: &Table,
) -> Result<Result<Written, ConfigFault>, AllocError>
    ensures { IfOk result (λ read. read ≡ spec.written_in (table_view table.now)) }
{
    let keys = known_keys(TableKind::Top, table);
    let version = version_at(table);
    let numbers = numbers_in(table);
    let rows = rows_in(alloc, table, any_version(version))?;
    match both(keys, both(version, both(numbers, rows))) {
        Ok(parts) => Ok(Ok(written_of(parts))),
        Err(fault) => Ok(Err(fault)),
    }
}

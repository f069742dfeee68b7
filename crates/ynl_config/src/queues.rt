//! The queues of a configuration.

ghost use Rattle.std.specs.Prelude.{◌≡◌, IfOk, codes, map, string_bytes};
ghost use Rattle.toml.specs.View.{table_view, view, items_view};
ghost use Rattle.ynl_config.specs.Earliest.{all_of, both, items_in, made};
ghost use Rattle.ynl_config.specs.Readings.{number_at, percent_at};
ghost use Rattle.ynl_config.specs.Seen.{access_in, labels_view, settings_view, queue_view};
ghost use Rattle.ynl_config.specs.Tables.{in_table, queue_in, share_of, pairs_in, values_in};
ghost use Rattle.ynl_config.specs.Tables as spec;

use crate::faults::ConfigFault;
use crate::fields::{count_at, factor_at, find, label_at, percent_at, stopped_at, text_at};
use crate::keys::{TableKind, known_keys};
use crate::listed::access_of;
use crate::together::{and_one, both};
use crate::values::{Version, name_of};
use std::alloc::{AllocError, Global};
use toml::{Table, Value};
use ynl_model::{LabelCapacity, LeafSettings};
use ynl_queues::{Access, WrittenQueue};
use ynl_resource::Hundredths;

/// Whether a queue is stopped, and its share of DEFAULT.
#[derive(Clone, Copy)]
struct Bounds {
    stopped: bool,
    capacity: Hundredths,
    maximum: Hundredths,
}

fn tenth() -> Hundredths
    ensures { result ≡ 1000 }
{
    match Hundredths::new(1000) {
        Some(share) => share,
        None => unreachable!(),
    }
}

/// Capacity and maximum.
fn capacities_at(table: &Table, version: Version) -> Result<(Hundredths, Hundredths), ConfigFault>
    ensures { result ≡ spec.capacities_at version (table_view table.now) }
{
    let capacity = percent_at(table, "capacity", version, 0, Hundredths::NOTHING);
    let maximum = percent_at(table, "maximum-capacity", version, 0, Hundredths::WHOLE);
    both(capacity, maximum)
}

fn share_in(table: &Table, version: Version, name: &str) -> Result<LabelCapacity, ConfigFault>
    ensures { result ≡ spec.share_in version name.now (table_view table.now) }
{
    let keys = known_keys(TableKind::LabelCapacity, table);
    match both(keys, both(name_of(name), capacities_at(table, version))) {
        Ok((_, (label, (capacity, maximum)))) => Ok(LabelCapacity {
            label,
            capacity,
            maximum,
        }),
        Err(fault) => Err(fault),
    }
}

#[tactic(auto, unfolding(crate::specs::Tables::share_of))]
fn share_of(name: &String, value: &Value, version: Version) -> Result<LabelCapacity, ConfigFault>
    ensures { result ≡ spec.share_of version (string_bytes name.now, view value.now) }
{
    match value.as_table() {
        Some(table) => share_in(table, version, name.as_str()),
        None => Err(ConfigFault::WrongKind),
    }
}

fn shares_in(
    alloc: Global,
    table: &Table,
    version: Version,
) -> Result<Result<Vec<LabelCapacity>, ConfigFault>, AllocError>
    ensures { IfOk result (λ rows. items_in rows ≡ all_of (map (share_of version) (pairs_in (table_view table.now)))) }
{
    let mut rows = Ok(Vec::new(alloc));
    for (name, value) in table {
        rows = and_one(rows, share_of(name, value, version))?;
    }
    Ok(rows)
}

#[tactic(auto, unfolding(crate::specs::Tables::shares_at))]
fn shares_at(
    alloc: Global,
    table: &Table,
    version: Version,
) -> Result<Result<Vec<LabelCapacity>, ConfigFault>, AllocError>
    ensures { IfOk result (λ rows. items_in rows ≡ spec.shares_at version (table_view table.now)) }
{
    match find(table, "label") {
        Some(value) => match value.as_table() {
            Some(shares) => shares_in(alloc, shares, version),
            None => Ok(Err(ConfigFault::WrongKind)),
        },
        None => Ok(Ok(Vec::new(alloc))),
    }
}

fn bounds_in(table: &Table, version: Version) -> Result<Bounds, ConfigFault>
    ensures { result ≡ spec.bounds_in version (table_view table.now) }
{
    match both(stopped_at(table, "state"), capacities_at(table, version)) {
        Ok((stopped, share)) => Ok(Bounds {
            stopped,
            capacity: share.0,
            maximum: share.1,
        }),
        Err(fault) => Err(fault),
    }
}

/// How often a user may take that much, how much masters may take, and the most applications.
fn limits_in(table: &Table, version: Version) -> Result<(u16, (Hundredths, u32)), ConfigFault>
    ensures { result ≡ both (number_at (codes "user-limit-factor") 1 10000 100 (table_view table.now))
        (both (percent_at (codes "maximum-am-resource-percent") version 0 1000 (table_view table.now))
        (number_at (codes "maximum-applications") 1 1000000 10000 (table_view table.now))) }
{
    let factor = factor_at(table, "user-limit-factor", 10000, 100);
    let masters = percent_at(table, "maximum-am-resource-percent", version, 0, tenth());
    let most = count_at(table, "maximum-applications", 1000000, 10000);
    both(factor, both(masters, most))
}

fn leaf_in(table: &Table, version: Version) -> Result<LeafSettings, ConfigFault>
    ensures { result ≡ spec.leaf_in version (table_view table.now) }
{
    let label = label_at(table, "default-node-label-expression");
    let user = percent_at(
        table,
        "minimum-user-limit-percent",
        version,
        1,
        Hundredths::WHOLE,
    );
    match both(label, both(user, limits_in(table, version))) {
        Ok((label, (user, (factor, (masters, most))))) => Ok(LeafSettings {
            default_label: label,
            minimum_user_limit_percent: user,
            user_limit_factor: factor,
            maximum_am_resource_percent: masters,
            maximum_applications: most,
        }),
        Err(fault) => Err(fault),
    }
}

#[tactic(auto, unfolding(crate::specs::Tables::access_at))]
pub(crate) fn access_at(
    alloc: Global,
    table: &Table,
) -> Result<Result<Access, ConfigFault>, AllocError>
    ensures { IfOk result (λ read. access_in read ≡ spec.access_at (table_view table.now)) }
{
    match find(table, "accessible-node-labels") {
        Some(value) => access_of(alloc, value),
        None => Ok(Ok(Access::Inherited)),
    }
}

/// The labels that a queue may use, and its shares of labels.
type QueueLabels = (Access, Vec<LabelCapacity>);

fn labels_in(
    alloc: Global,
    table: &Table,
    version: Version,
) -> Result<Result<QueueLabels, ConfigFault>, AllocError>
    ensures { IfOk result (λ read. made labels_view read ≡ both (spec.access_at (table_view table.now)) (spec.shares_at version (table_view table.now))) }
{
    let access = access_at(alloc, table)?;
    let shares = shares_at(alloc, table, version)?;
    Ok(both(access, shares))
}

/// The settings that work in leaves alone, and a queue's labels.
fn settings_in(
    alloc: Global,
    table: &Table,
    version: Version,
) -> Result<Result<(LeafSettings, QueueLabels), ConfigFault>, AllocError>
    ensures { IfOk result (λ read. made settings_view read
        ≡ both (spec.leaf_in version (table_view table.now)) (both (spec.access_at (table_view table.now)) (spec.shares_at version (table_view table.now)))) }
{
    let labels = labels_in(alloc, table, version)?;
    Ok(both(leaf_in(table, version), labels))
}

/// What a queue's table says: its keys, its path, and its settings.
type QueueParts<'t> = ((), (&'t str, (Bounds, (LeafSettings, QueueLabels))));

fn queue_of_parts(alloc: Global, parts: QueueParts<'_>) -> Result<WrittenQueue, AllocError>
    ensures { IfOk result (λ queue. queue ≡ spec.queue_row (queue_view parts.entry)) }
{
    let (_, (path, (bounds, (leaf, (access, capacities))))) = parts;
    let path = String::from_str(alloc, path)?;
    Ok(WrittenQueue {
        path,
        stopped: bounds.stopped,
        capacity: bounds.capacity,
        maximum: bounds.maximum,
        access,
        leaf,
        capacities,
    })
}

fn queue_in(
    alloc: Global,
    table: &Table,
    version: Version,
) -> Result<Result<WrittenQueue, ConfigFault>, AllocError>
    ensures { IfOk result (λ row. row ≡ spec.queue_in version (table_view table.now)) }
{
    let keys = known_keys(TableKind::Queue, table);
    let path = text_at(table, "path");
    let bounds = bounds_in(table, version);
    let settings = settings_in(alloc, table, version)?;
    match both(keys, both(path, both(bounds, settings))) {
        Ok(parts) => {
            let queue = queue_of_parts(alloc, parts)?;
            Ok(Ok(queue))
        }
        Err(fault) => Ok(Err(fault)),
    }
}

fn queue_of(
    alloc: Global,
    value: &Value,
    version: Version,
) -> Result<Result<WrittenQueue, ConfigFault>, AllocError>
    ensures { IfOk result (λ row. row ≡ in_table (queue_in version) (view value.now)) }
{
    match value.as_table() {
        Some(table) => queue_in(alloc, table, version),
        None => Ok(Err(ConfigFault::WrongKind)),
    }
}

fn queues_of(
    alloc: Global,
    values: &[Value],
    version: Version,
) -> Result<Result<Vec<WrittenQueue>, ConfigFault>, AllocError>
    ensures { IfOk result (λ rows. items_in rows ≡ all_of (map (in_table (queue_in version)) (values_in (items_view values.now)))) }
{
    let mut rows = Ok(Vec::new(alloc));
    for value in values {
        let row = queue_of(alloc, value, version)?;
        rows = and_one(rows, row)?;
    }
    Ok(rows)
}

/// The queues, in the order of the text.
#[tactic(auto, unfolding(crate::specs::Tables::queues_at))]
pub(crate) fn queues_at(
    alloc: Global,
    table: &Table,
    version: Version,
) -> Result<Result<Vec<WrittenQueue>, ConfigFault>, AllocError>
    ensures { IfOk result (λ rows. items_in rows ≡ spec.queues_at version (table_view table.now)) }
{
    match find(table, "queue") {
        Some(value) => match value.as_array() {
            Some(values) => queues_of(alloc, values, version),
            None => Ok(Err(ConfigFault::WrongKind)),
        },
        None => Ok(Ok(Vec::new(alloc))),
    }
}

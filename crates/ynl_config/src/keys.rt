//! Which keys a table of a configuration may have.

ghost use Rattle.std.specs.Prelude.{◌≡◌, find, option_map};
ghost use Rattle.std.specs.List.{list_any};
ghost use Rattle.std.specs.Str.{bytes_eq};
ghost use Rattle.toml.specs.View.{table_view};
ghost use Rattle.ynl_config.specs.Known as spec;
ghost use Rattle.ynl_config.specs.KeyTables.{is_faulty};
ghost use Rattle.ynl_config.specs.Places.{is_name, keys_in, share_table, unknown_key};

use crate::faults::ConfigFault;
use crate::fields::find;
use crate::values::name_of;
use toml::Table;

/// The tables of a configuration: the whole text, a label, a queue, and a queue's share of a label.
#[derive(Clone, Copy)]
pub(crate) enum TableKind {
    Top,
    Label,
    Queue,
    LabelCapacity,
}

const TOP_KEYS: [&str; 7] = [
    "version",
    "containers-per-heartbeat",
    "maximum-allocation-memory",
    "maximum-allocation-vcores",
    "default-clock-limit",
    "label",
    "queue",
];

const LABEL_KEYS: [&str; 3] = ["name", "exclusive", "clock-limit"];

const SHARE_KEYS: [&str; 2] = ["capacity", "maximum-capacity"];

/// A queue's share of DEFAULT, and its own settings.
const QUEUE_KEYS: [&str; 11] = [
    "capacity",
    "maximum-capacity",
    "path",
    "state",
    "accessible-node-labels",
    "default-node-label-expression",
    "minimum-user-limit-percent",
    "user-limit-factor",
    "maximum-am-resource-percent",
    "maximum-applications",
    "label",
];

fn is_among(key: &str, keys: &[&str]) -> bool
    ensures { result ≡ list_any (λ known. bytes_eq key.now known.now) keys.now }
{
    for i in 0..keys.len() {
        if key == keys[i] {
            return true;
        }
    }
    false
}

pub(crate) fn is_known(kind: TableKind, key: &str) -> bool
    ensures { result ≡ spec.is_known kind key.now }
{
    match kind {
        TableKind::Top => is_among(key, &TOP_KEYS),
        TableKind::Label => is_among(key, &LABEL_KEYS),
        TableKind::Queue => is_among(key, &QUEUE_KEYS),
        TableKind::LabelCapacity => is_among(key, &SHARE_KEYS),
    }
}

/// Whether a text is the name of a label.
pub(crate) fn is_name(text: &str) -> bool
    ensures { result ≡ is_name text.now }
{
    name_of(text).is_ok()
}

/// The table at a key.
pub(crate) fn table_at<'t>(table: &'t Table, key: &str) -> Option<&'t Table>
    ensures { option_map (λ t. table_view t.now) result ≡ share_table (table_view table.now) key.now }
{
    match find(table, key) {
        Some(value) => value.as_table(),
        None => None,
    }
}

/// What is wrong with a key of a table.
#[derive(Clone, Copy)]
pub(crate) enum KeyFault {
    /// A table of this kind may not have it.
    Unknown(TableKind),
    /// It is the name of no label.
    NoName,
    /// No table stands there.
    NoTable,
}

fn is_faulty(fault: KeyFault, table: &Table, key: &str) -> bool
    ensures { result ≡ is_faulty fault (table_view table.now) key.now }
{
    match fault {
        KeyFault::Unknown(kind) => !is_known(kind, key),
        KeyFault::NoName => !is_name(key),
        KeyFault::NoTable => table_at(table, key).is_none(),
    }
}

/// The first key with the fault.
pub(crate) fn faulty_key(fault: KeyFault, table: &Table) -> Option<&str>
    ensures { option_map (λ key. key.now) result ≡ find (is_faulty fault (table_view table.now)) (keys_in (table_view table.now)) }
{
    for (key, _) in table {
        if is_faulty(fault, table, key.as_str()) {
            return Some(key.as_str());
        }
    }
    None
}

/// The first key that the table may not have.
#[tactic(auto, unfolding(crate::specs::Places::unknown_key))]
pub(crate) fn unknown_key(kind: TableKind, table: &Table) -> Option<&str>
    ensures { option_map (λ key. key.now) result ≡ unknown_key kind (table_view table.now) }
{
    faulty_key(KeyFault::Unknown(kind), table)
}

/// Whether all keys are known, as a fault where they are not.
pub(crate) fn known_keys(kind: TableKind, table: &Table) -> Result<(), ConfigFault>
    ensures { result ≡ spec.known_keys kind (table_view table.now) }
{
    match unknown_key(kind, table) {
        Some(_) => Err(ConfigFault::UnknownKey),
        None => Ok(()),
    }
}

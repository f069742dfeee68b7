//! What a queue is given of a partition, as a JSON object.

ghost use Rattle.std.specs.Prelude.{◌≡◌, ◌≤◌, ◌*◌, ◌/◌, ◌++◌, ◌&&◌, true, map, IfOk};
ghost use Rattle.std.specs.List.{list_any};
ghost use Rattle.ynl_resource.specs.Names.{is_within};
ghost use Rattle.ynl_resource.specs.Ranges.{whole};
ghost use Rattle.ynl_model.specs.Accepted.{parent_of};
ghost use Rattle.ynl_model.specs.Queues.{accepts, capacity_on, configured_maximum, may_use, opening_stops};
ghost use Rattle.ynl_check.specs.Tree as spec;

use crate::objects::{number, number_if, put_object, text, text_if};
use std::alloc::{AllocError, Global};
use ynl_queues::{Config, QueueRow, is_within, nested_floor};
use ynl_resource::{Hundredths, Label, Name, Resource, WHOLE};

/// A partition of 1,000,000 MB, so that what a queue has of it is told in millionths.
const MILLIONS: Resource = Resource {
    memory: 1_000_000,
    vcores: 0,
};

/// What a queue is guaranteed of [`MILLIONS`].
fn share(config: &Config, queue: &[Name], label: &Label) -> u64
    ensures value { result ≡ spec.share config.now queue.now label.now }
    ensures within { result ≤ 1000000 }
{
    config.guaranteed(queue, label, &MILLIONS).memory
}

/// The most that a queue may use of it.
fn most(config: &Config, queue: &[Name], label: &Label) -> u64
    ensures value { result ≡ spec.most config.now queue.now label.now }
    ensures within { result ≤ 1000000 }
{
    nested_floor(
        |step| config.configured_maximum(step, label),
        queue,
        &MILLIONS,
    )
    .memory
}

/// What a queue has of [`MILLIONS`] on a partition.
#[derive(Clone, Copy)]
pub struct Portion {
    pub label: Label,
    pub share: u32,
    pub most: u32,
}

/// What a queue has on a partition.
fn portion_of(config: &Config, queue: &[Name], label: &Label) -> Portion
    ensures { result ≡ spec.portion config.now queue.now label.now }
{
    Portion {
        label: *label,
        share: share(config, queue, label) as u32,
        most: most(config, queue, label) as u32,
    }
}

/// What a queue has on these partitions.
pub(crate) fn portions(
    alloc: Global,
    config: &Config,
    queue: &[Name],
    labels: &[Label],
) -> Result<Vec<Portion>, AllocError>
    ensures { IfOk result (λ portions. portions.items ≡ map (spec.portion config.now queue.now) labels.now) }
{
    labels
        .iter()
        .map(|label| portion_of(config, queue, label))
        .collect(alloc)
}

/// Whether the queue or one above it is configured as stopped.
fn is_stopped(config: &Config, queue: &[Name]) -> bool
    ensures { result ≡ list_any (λ row. row.stopped && is_within row.path queue.now) config.now.queues }
{
    config
        .queues()
        .iter()
        .any(|row| row.stopped && is_within(row.path.names(), queue))
}

/// Whether the queue takes applications.
fn accepts(config: &Config, queue: &[Name]) -> bool
    ensures { result ≡ accepts (opening_stops config.now) queue.now }
{
    !is_stopped(config, queue)
}

/// The word for that.
pub(crate) fn state_word(config: &Config, queue: &[Name]) -> &'static str
    ensures { result.now ≡ spec.state_word config.now queue.now }
{
    if accepts(config, queue) {
        "RUNNING"
    } else {
        "STOPPED"
    }
}

/// What is told of a queue on a partition in numbers. The last four are of a leaf alone.
#[derive(Clone, Copy)]
pub struct Numbers {
    pub capacity: u64,
    pub maximum: u64,
    pub share: u64,
    pub most: u64,
    pub applications: u64,
    pub factor: u64,
    pub masters: u64,
    pub users: u64,
}

/// The capacity of a queue on a partition that it may use.
#[tactic(auto, unfolding(ynl_model::specs::Queues::capacity_on))]
fn usable_capacity(config: &Config, queue: &[Name], label: &Label) -> Hundredths
    requires { may_use config.now queue.now label.now ≡ true }
    ensures { result ≡ capacity_on config.now queue.now label.now }
{
    match config.row(queue) {
        Some(row) => row.capacity_on(label),
        None => Hundredths::NOTHING,
    }
}

/// Its configured maximum there.
#[tactic(auto, unfolding(ynl_model::specs::Queues::configured_maximum))]
fn usable_maximum(config: &Config, queue: &[Name], label: &Label) -> Hundredths
    requires { may_use config.now queue.now label.now ≡ true }
    ensures { result ≡ configured_maximum config.now queue.now label.now }
{
    match config.row(queue) {
        Some(row) => row.maximum_on(label),
        None => Hundredths::NOTHING,
    }
}

/// A part of an amount, rounded down.
fn part_of(amount: u32, part: u64) -> u64
    requires { part ≤ whole }
    ensures { result ≡ amount * part / whole }
{
    u64::from(amount) * part / WHOLE
}

/// The numbers of a queue on a partition that it may use, by what its parent has there.
#[tactic(auto, unfolding(crate::specs::Tree::numbers))]
pub(crate) fn numbers_of(config: &Config, row: &QueueRow, above: &Portion) -> Numbers
    requires usable { may_use config.now row.now.path above.now.label ≡ true }
    requires above { above.now ≡ spec.portion config.now (parent_of row.now.path) above.now.label }
    ensures { result ≡ spec.numbers config.now row.now above.now.label }
{
    let queue = row.path.names();
    let capacity = usable_capacity(config, queue, &above.label).number();
    let maximum = usable_maximum(config, queue, &above.label).number();
    Numbers {
        capacity,
        maximum,
        share: part_of(above.share, capacity),
        most: part_of(above.most, maximum),
        applications: u64::from(row.leaf.maximum_applications),
        factor: u64::from(row.leaf.user_limit_factor),
        masters: row.leaf.maximum_am_resource_percent.number(),
        users: row.leaf.minimum_user_limit_percent.number(),
    }
}

/// A queue, with what is said of it on each partition.
#[derive(Clone, Copy)]
pub(crate) struct Queue<'a> {
    pub row: &'a QueueRow,
    pub path: &'a str,
    pub state: &'a str,
    pub is_leaf: bool,
}

/// The text with the line of a queue that has these numbers more.
#[tactic(auto, unfolding(crate::specs::Tree::numbers_line))]
pub(crate) fn put_numbers<'a>(
    line: Vec<u8>,
    queue: &'a Queue<'a>,
    numbers: Numbers,
    default: &'a str,
    label: &'a str,
) -> Result<Vec<u8>, AllocError>
    ensures { IfOk result (λ longer. longer.items ≡ line.items ++ spec.numbers_line numbers queue.now.path.now queue.now.state.now queue.now.is_leaf default.now label.now) }
{
    let leaf = queue.is_leaf;
    put_object(
        line,
        &[
            ("applications", number_if(leaf, numbers.applications)),
            ("capacity", number(numbers.capacity)),
            ("default", text_if(leaf, default)),
            ("factor", number_if(leaf, numbers.factor)),
            ("label", text(label)),
            ("masters", number_if(leaf, numbers.masters)),
            ("maximum", number(numbers.maximum)),
            ("most", number(numbers.most)),
            ("queue", text(queue.path)),
            ("share", number(numbers.share)),
            ("state", text(queue.state)),
            ("users", number_if(leaf, numbers.users)),
        ],
    )
}

//! The parts that queues have of the partitions.

ghost use Rattle.std.specs.Prelude.{◌≡◌, IfOk, IsTrue};
ghost use Rattle.ynl_resource.specs.Amounts.{fits_in, IsSmall};
ghost use Rattle.ynl_inventory.specs.layout.settings.Shares.{HasCell, IsWayIn, configured_on, configured_share, configured_shares, capacity_at, maximum_at, reached, with_maximum};

use std::alloc::{AllocError, Global};
use std::marker::Model;
use ynl_queues::{Config, share_of};
use ynl_resource::{Hundredths, Label, Path, Resource};

/// The part of its parent's that a queue is guaranteed of a partition, and the part that it may use at most.
#[derive(Clone, Copy)]
pub struct Share {
    pub capacity: Hundredths,
    pub maximum: Hundredths,
}

/// The parts that queues have of the partitions: partition by partition, and there by the queues' numbers. Root has the whole.
/// A contract sees the lists.
#[derive(Drop)]
pub struct Shares {
    rows: Vec<Vec<Share>>,
}

impl Model for Shares {
    ghost use Rattle.std.specs.Prelude.{List};
    ghost use Rattle.ynl_inventory.specs.declared.layout.settings.shares.Share.{Share};
    ghost use Rattle.ynl_inventory.specs.layout.settings.Fields.{shares_of};

    ghost Value = { List (List Share) };

    ghost view = { shares_of };
}

/// What is configured of a queue on a partition.
fn configured(config: &Config, queue: &Path, label: &Label) -> Share
    ensures { result ≡ configured_share config.now label.now queue.now }
{
    Share {
        capacity: config.capacity_on(queue.names(), label),
        maximum: config.configured_maximum(queue.names(), label),
    }
}

/// What is configured of root, which has the whole, and of all queues on a partition.
fn configured_on(alloc: Global, config: &Config, label: &Label) -> Result<Vec<Share>, AllocError>
    ensures { IfOk result (λ row. row.items ≡ configured_on config.now label.now) }
{
    let mut row = Vec::with_capacity(alloc, config.queues().len() + 1)?;
    row.push(Share {
        capacity: Hundredths::WHOLE,
        maximum: Hundredths::WHOLE,
    })?;
    for queue in config.queues() {
        row.push(configured(config, &queue.path, label))?;
    }
    Ok(row)
}

impl Shares {
    /// The configured parts.
    pub fn new(alloc: Global, config: &Config) -> Result<Shares, AllocError>
        ensures { IfOk result (λ shares. shares ≡ configured_shares config.now) }
    {
        let labels = config.labels().rows();
        let mut rows = Vec::with_capacity(alloc, labels.len() + 1)?;
        rows.push(configured_on(alloc, config, &Label::Unlabelled)?)?;
        for row in labels {
            rows.push(configured_on(alloc, config, &Label::Named(row.name))?)?;
        }
        Ok(Shares { rows })
    }

    /// The part that a queue is guaranteed of a partition.
    pub fn capacity(&self, partition: usize, queue: usize) -> Hundredths
        requires { HasCell self.now partition queue }
        ensures { result ≡ capacity_at self.now partition queue }
    {
        self.rows[partition][queue].capacity
    }

    /// The part that a queue may use of a partition at most.
    pub fn maximum(&self, partition: usize, queue: usize) -> Hundredths
        requires { HasCell self.now partition queue }
        ensures { result ≡ maximum_at self.now partition queue }
    {
        self.rows[partition][queue].maximum
    }

    /// The part that a queue may use of a partition at most is another.
    pub fn set_maximum(&mut self, partition: usize, queue: usize, maximum: Hundredths)
        requires { HasCell self.old partition queue }
        ensures { self.new ≡ with_maximum partition queue maximum self.old }
    {
        let row = &mut self.rows[partition];
        let share = &mut row[queue];
        share.maximum = maximum;
    }

    /// What the last of some queues is guaranteed of a partition's total: those on the way to it, below root.
    pub fn guaranteed(&self, partition: usize, way: &[usize], total: &Resource) -> Resource
        requires way { IsWayIn self.now partition way.now }
        requires small { IsSmall total.now }
        ensures value { result ≡ reached (capacity_at self.now partition) way.now total.now }
        ensures within { IsTrue (fits_in result total.now) }
    {
        let shares = &self.rows[partition];
        let mut above = *total;
        for queue in way {
            above = share_of(&above, &shares[*queue].capacity);
        }
        above
    }

    /// The most that the last of some queues may use of a partition's total: those on the way to it, below root.
    pub fn most(&self, partition: usize, way: &[usize], total: &Resource) -> Resource
        requires way { IsWayIn self.now partition way.now }
        requires small { IsSmall total.now }
        ensures value { result ≡ reached (maximum_at self.now partition) way.now total.now }
        ensures within { IsTrue (fits_in result total.now) }
    {
        let shares = &self.rows[partition];
        let mut above = *total;
        for queue in way {
            above = share_of(&above, &shares[*queue].maximum);
        }
        above
    }
}

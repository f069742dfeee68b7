//! How much there is of the partitions.

ghost use Rattle.std.specs.Prelude.{◌≡◌, ◌<◌, length, replicate, IfOk};
ghost use Rattle.ynl_inventory.specs.Changes.{with_at};
ghost use Rattle.ynl_cluster.specs.ledger.Totals.{IsSmallTotal, no_total, grown, shrunk, total_at};

use std::alloc::{AllocError, Global};
use std::marker::Model;
use ynl_resource::{Resource, Size};

/// How much there is of a partition: the sum of its nodes, and how many these are.
#[derive(Clone, Copy)]
pub struct Total {
    pub amount: Resource,
    pub nodes: u32,
}

/// The totals of all partitions, by the partitions' numbers. A contract sees the list.
#[derive(Drop)]
pub struct Totals {
    rows: Vec<Total>,
}

impl Model for Totals {
    ghost use Rattle.std.specs.Prelude.{List};
    ghost use Rattle.ynl_cluster.specs.declared.ledger.totals.Total.{Total};

    ghost Value = { List Total };

    ghost view = { λ a. a.rows.items };
}

/// No nodes.
const NOTHING: Total = Total {
    amount: Resource {
        memory: 0,
        vcores: 0,
    },
    nodes: 0,
};

/// A total with one node more.
fn grown(kept: &Total, size: Size) -> Total
    requires { IsSmallTotal kept.now }
    ensures { result ≡ grown size kept.now }
{
    Total {
        amount: kept.amount.add(size.amount()),
        nodes: kept.nodes + 1,
    }
}

/// A total with one node less.
fn shrunk(kept: &Total, size: Size) -> Total
    ensures { result ≡ shrunk size kept.now }
{
    let size = size.amount();
    Total {
        amount: Resource {
            memory: kept.amount.memory.saturating_sub(size.memory),
            vcores: kept.amount.vcores.saturating_sub(size.vcores),
        },
        nodes: kept.nodes.saturating_sub(1),
    }
}

impl Totals {
    /// No nodes, in each of so many partitions. It fails if memory is refused.
    pub fn new(alloc: Global, partitions: usize) -> Result<Totals, AllocError>
        ensures { IfOk result (λ totals. totals ≡ replicate partitions no_total) }
    {
        let rows = Vec::from_elem(alloc, NOTHING, partitions)?;
        Ok(Totals { rows })
    }

    /// How much a partition has.
    pub fn amount(&self, partition: usize) -> Resource
        requires { partition < length self.now }
        ensures { result ≡ (total_at self.now partition).amount }
    {
        self.rows[partition].amount
    }

    /// How many nodes a partition has.
    pub fn nodes(&self, partition: usize) -> u32
        requires { partition < length self.now }
        ensures { result ≡ (total_at self.now partition).nodes }
    {
        self.rows[partition].nodes
    }

    /// A partition has one node more.
    pub fn add(&mut self, partition: usize, size: Size)
        requires partition { partition < length self.old }
        requires small { IsSmallTotal (total_at self.old partition) }
        ensures { self.new ≡ with_at partition (grown size) self.old }
    {
        self.rows[partition] = grown(&self.rows[partition], size);
    }

    /// A partition has one node less.
    pub fn take(&mut self, partition: usize, size: Size)
        requires { partition < length self.old }
        ensures { self.new ≡ with_at partition (shrunk size) self.old }
    {
        self.rows[partition] = shrunk(&self.rows[partition], size);
    }
}

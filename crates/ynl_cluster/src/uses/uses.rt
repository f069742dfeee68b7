//! The uses of all queues.

ghost use Rattle.std.specs.Prelude.{◌≡◌, ◌<◌, length, slice_index_or, slice_get, [], Some, IfOk};
ghost use Rattle.std.specs.List.{AllByRecursion};
ghost use Rattle.ynl_laws.specs.Ways.{AreApart, along};
ghost use Rattle.ynl_cluster.specs.uses.Tallies.{AreSmall, HasPartition, IsInside, IsTable, no_use, raised, lowered, with_partition};

use crate::uses::tally::{Tally, lowered, raised};
use std::alloc::{AllocError, Global};
use std::marker::Model;
use ynl_model::Use;
use ynl_resource::Resource;

/// What the queues use of the partitions: partition by partition, and there by the queues' numbers. A contract sees the lists.
#[derive(Drop)]
pub struct Uses {
    rows: Vec<Vec<Use>>,
}

impl Model for Uses {
    ghost use Rattle.std.specs.Prelude.{List};
    ghost use Rattle.ynl_model.specs.declared.uses.Use.{Use};
    ghost use Rattle.ynl_cluster.specs.uses.Fields.{uses_of};

    ghost Value = { List (List Use) };

    ghost view = { uses_of };
}

/// No use.
const NOTHING: Use = Use {
    used: Resource {
        memory: 0,
        vcores: 0,
    },
    masters: Resource {
        memory: 0,
        vcores: 0,
    },
    master_count: 0,
    guests: Resource {
        memory: 0,
        vcores: 0,
    },
};

/// The uses of the numbers of a way are raised.
fn raise_along(uses: &mut Vec<Use>, way: &[usize], tally: &Tally)
    requires small { AreSmall uses.old.items }
    requires apart { AreApart way.now }
    requires inside { AllByRecursion (λ n. n < length uses.old.items) way.now }
    ensures { uses.new.items ≡ along (raised tally.now) way.now uses.old.items }
{
    for i in 0..way.len() {
        let number = way[i];
        uses[number] = raised(&uses[number], tally);
    }
}

/// The uses of the numbers of a way are lowered.
fn lower_along(uses: &mut Vec<Use>, way: &[usize], tally: &Tally)
    requires apart { AreApart way.now }
    requires inside { AllByRecursion (λ n. n < length uses.old.items) way.now }
    ensures { uses.new.items ≡ along (lowered tally.now) way.now uses.old.items }
{
    for i in 0..way.len() {
        let number = way[i];
        uses[number] = lowered(&uses[number], tally);
    }
}

impl Uses {
    /// Nothing is used by so many queues of so many partitions.
    pub fn new(alloc: Global, partitions: usize, queues: usize) -> Result<Uses, AllocError>
        ensures { IfOk result (IsTable partitions queues no_use) }
    {
        let mut rows = Vec::with_capacity(alloc, partitions)?;
        for _ in 0..partitions {
            rows.push(Vec::from_elem(alloc, NOTHING, queues)?)?;
        }
        Ok(Uses { rows })
    }

    /// What a queue uses of a partition.
    pub fn of(&self, partition: usize, queue: usize) -> &Use
        requires partition { HasPartition self.now partition }
        requires queue { queue < length (slice_index_or self.now partition []) }
        ensures { slice_get (slice_index_or self.now partition []) queue ≡ Some result.now }
    {
        &self.rows[partition][queue]
    }

    /// The queues of a line use one container more of a partition.
    pub fn raise(&mut self, partition: usize, line: &[usize], tally: &Tally)
        requires partition { HasPartition self.old partition }
        requires small { AreSmall (slice_index_or self.old partition []) }
        requires apart { AreApart line.now }
        requires inside { IsInside self.old partition line.now }
        ensures { self.new ≡ with_partition partition (along (raised tally.now) line.now) self.old }
    {
        let uses = &mut self.rows[partition];
        raise_along(uses, line, tally);
    }

    /// They use one less.
    pub fn lower(&mut self, partition: usize, line: &[usize], tally: &Tally)
        requires partition { HasPartition self.old partition }
        requires apart { AreApart line.now }
        requires inside { IsInside self.old partition line.now }
        ensures { self.new ≡ with_partition partition (along (lowered tally.now) line.now) self.old }
    {
        let uses = &mut self.rows[partition];
        lower_along(uses, line, tally);
    }
}

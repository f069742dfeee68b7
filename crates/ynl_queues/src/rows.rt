//! The rows of a configuration.

ghost use Rattle.std.specs.Prelude.{◌≡◌, find, filter, IfOk};
ghost use Rattle.ynl_resource.specs.Names.{same_name, tenant_of, top_level, is_within};
ghost use Rattle.ynl_model.specs.Queues.{capacity_row, written_capacity, written_maximum};
ghost use Rattle.ynl_model.specs.Accepted.{listed};
ghost use Rattle.ynl_queues.specs.Rows.{access_of};

use crate::ways::is_within;
use std::alloc::{AllocError, Global};
use std::marker::Model;
use ynl_model::{LabelCapacity, LeafSettings};
use ynl_resource::{Hundredths, Label, Name, Path};

/// The labels that a row lets its queue use; every queue may use DEFAULT.
#[derive(Drop)]
pub enum Access {
    /// Those of the parent.
    Inherited,
    /// All that are configured.
    AllLabels,
    /// These.
    Listed(Vec<Name>),
}

impl Access {
    /// The labels that are listed.
    pub fn listed(&self) -> &[Name]
        ensures { result.now ≡ listed (access_of self.now) }
    {
        match self {
            Access::Inherited => &[],
            Access::AllLabels => &[],
            Access::Listed(names) => names,
        }
    }

    /// The same once more.
    fn copy(&self, alloc: Global) -> Result<Access, AllocError>
        ensures { IfOk result (λ copy. access_of copy ≡ access_of self.now) }
    {
        match self {
            Access::Inherited => Ok(Access::Inherited),
            Access::AllLabels => Ok(Access::AllLabels),
            Access::Listed(names) => Ok(Access::Listed(Vec::from_slice(alloc, names)?)),
        }
    }
}

/// A configured queue, below root. What is set of leaves works in leaves alone.
#[derive(Drop)]
pub struct QueueRow {
    pub path: Path,
    pub stopped: bool,
    pub capacity: Hundredths,
    pub maximum: Hundredths,
    pub access: Access,
    pub leaf: LeafSettings,
    pub capacities: Vec<LabelCapacity>,
}

impl Model for QueueRow {
    ghost use Rattle.ynl_model.specs.Queues.{QueueRow as Row};

    ghost Value = { Row };

    ghost use Rattle.ynl_queues.specs.Rows.{access_of};

    ghost view = { λ r. record {
      path = r.path;
      stopped = r.stopped;
      capacity = r.capacity;
      maximum = r.maximum;
      access = access_of r.access;
      leaf = r.leaf;
      capacities = r.capacities.items;
    } };

    ghost use Rattle.std.specs.Prelude.{◌<◌, length};

    ghost invariant = { λ r. 0 < length r.path };
}

impl QueueRow {
    /// The tenant of the queue: its top-level queue's name.
    pub fn tenant(&self) -> Name
        ensures { result ≡ tenant_of self.now.path }
    {
        match self.path.tenant() {
            Some(tenant) => tenant,
            None => unreachable!(),
        }
    }

    /// The same row once more.
    pub(crate) fn copy(&self, alloc: Global) -> Result<QueueRow, AllocError>
        ensures { IfOk result (λ copy. copy ≡ self.now) }
    {
        Ok(QueueRow {
            path: self.path,
            stopped: self.stopped,
            capacity: self.capacity,
            maximum: self.maximum,
            access: self.access.copy(alloc)?,
            leaf: self.leaf,
            capacities: Vec::from_slice(alloc, &self.capacities)?,
        })
    }

    fn written_row(&self, name: &Name) -> Option<LabelCapacity>
        ensures { result ≡ find (λ given. same_name given.label name.now) self.now.capacities }
    {
        self.capacities
            .iter()
            .copied()
            .find(|given| given.label == *name)
    }

    fn capacity_row(&self, name: &Name) -> LabelCapacity
        ensures { result ≡ capacity_row self.now name.now }
    {
        match self.written_row(name) {
            Some(given) => given,
            None => LabelCapacity {
                label: *name,
                capacity: Hundredths::NOTHING,
                maximum: Hundredths::WHOLE,
            },
        }
    }

    /// The capacity that the row writes for a partition.
    pub fn capacity_on(&self, label: &Label) -> Hundredths
        ensures { result ≡ written_capacity label.now self.now }
    {
        match label {
            Label::Unlabelled => self.capacity,
            Label::Named(name) => self.capacity_row(name).capacity,
        }
    }

    /// The maximum that the row writes for a partition.
    pub fn maximum_on(&self, label: &Label) -> Hundredths
        ensures { result ≡ written_maximum label.now self.now }
    {
        match label {
            Label::Unlabelled => self.maximum,
            Label::Named(name) => self.capacity_row(name).maximum,
        }
    }
}

/// The same rows once more.
pub(crate) fn copy_rows(alloc: Global, rows: &[QueueRow]) -> Result<Vec<QueueRow>, AllocError>
    ensures { IfOk result (λ copy. copy.items ≡ rows.now) }
{
    let mut copy = Vec::with_capacity(alloc, rows.len())?;
    for row in rows {
        copy.push(row.copy(alloc)?)?;
    }
    Ok(copy)
}

/// The rows of a tenant's queues. Their capacities below root need not come to the whole.
pub(crate) fn copy_within(
    alloc: Global,
    rows: &[QueueRow],
    tenant: &Name,
) -> Result<Vec<QueueRow>, AllocError>
    ensures { IfOk result (λ copy. copy.items ≡ filter (λ row. is_within (top_level tenant.now) row.path) rows.now) }
{
    let mut copy = Vec::new(alloc);
    for row in rows {
        if is_within(&[*tenant], row.path.names()) {
            copy.push(row.copy(alloc)?)?;
        }
    }
    Ok(copy)
}

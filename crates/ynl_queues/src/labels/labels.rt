//! The configured labels.

ghost use Rattle.std.specs.Prelude.{◌≡◌, map, option_map, true, IfOk};
ghost use Rattle.ynl_resource.specs.Names.{same_name};
ghost use Rattle.ynl_model.specs.Accepted.{all_differ};
ghost use Rattle.ynl_model.specs.Nodes.{label_row, has_label, is_exclusive, clock_limit};
ghost use Rattle.ynl_queues.specs.labels.Built.{labels_of};

use crate::labels::faults::fault_of;
use std::alloc::{AllocError, Global};
use std::marker::Model;
use ynl_model::{LabelFault, LabelRow};
use ynl_resource::{Label, Name};

/// The configured labels, and how far the clock of the DEFAULT partition goes.
#[derive(Drop)]
pub struct Labels {
    rows: Vec<LabelRow>,
    default_limit: u64,
}

impl Model for Labels {
    ghost use Rattle.ynl_model.specs.Nodes.{Labels as Configured};

    ghost Value = { Configured };

    ghost view = { λ l. record { rows = l.rows.items; default_limit = l.default_limit } };
}

impl Labels {
    /// These labels, as they stand.
    pub fn new(rows: Vec<LabelRow>, default_limit: u64) -> Labels
        ensures { result ≡ record { rows = rows.items; default_limit = default_limit } }
    {
        Labels {
            rows,
            default_limit,
        }
    }

    /// The labels of these rows; or their first fault: more than 64 rows, two of one name, or a clock
    /// limit (that of a row, or the one for DEFAULT) that is not from 1 to 9007199254740991.
    #[tactic(auto, unfolding(crate::specs::labels::Built::labels_of), using(crate::proofs::labels::Differ::names_differ))]
    pub fn build(rows: Vec<LabelRow>, default_limit: u64) -> Result<Labels, LabelFault>
        ensures built { result ≡ labels_of rows.items default_limit }
        ensures differ { IfOk result (λ labels. all_differ same_name (map (λ row. row.name) labels.rows) ≡ true) }
    {
        match fault_of(&rows, default_limit) {
            Some(fault) => Err(fault),
            None => Ok(Labels::new(rows, default_limit)),
        }
    }

    /// The same labels once more.
    pub fn copy(&self, alloc: Global) -> Result<Labels, AllocError>
        ensures { IfOk result (λ copy. copy ≡ self.now) }
    {
        let rows = Vec::from_slice(alloc, &self.rows)?;
        Ok(Labels::new(rows, self.default_limit))
    }

    /// The rows, in the order of the configuration.
    pub fn rows(&self) -> &[LabelRow]
        ensures { result.now ≡ self.now.rows }
    {
        &self.rows
    }

    fn row(&self, name: &Name) -> Option<&LabelRow>
        ensures { option_map (λ r. r.now) result ≡ label_row self.now name.now }
    {
        self.rows.iter().find(|row| row.name == *name)
    }

    /// Whether the label is configured; DEFAULT always is.
    pub fn has(&self, label: &Label) -> bool
        ensures { result ≡ has_label self.now label.now }
    {
        match label {
            Label::Unlabelled => true,
            Label::Named(name) => self.row(name).is_some(),
        }
    }

    /// Whether the label's partition is exclusive; DEFAULT is.
    pub fn exclusive(&self, label: &Label) -> bool
        ensures { result ≡ is_exclusive self.now label.now }
    {
        match label {
            Label::Unlabelled => true,
            Label::Named(name) => match self.row(name) {
                Some(row) => row.exclusive,
                None => false,
            },
        }
    }

    /// How far the clock of the label's partition goes; 0 for a label that is not configured.
    pub fn limit(&self, label: &Label) -> u64
        ensures { result ≡ clock_limit self.now label.now }
    {
        match label {
            Label::Unlabelled => self.default_limit,
            Label::Named(name) => match self.row(name) {
                Some(row) => row.limit,
                None => 0,
            },
        }
    }
}

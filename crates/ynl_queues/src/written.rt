//! The queues as a configuration writes them.

ghost use Rattle.std.specs.Prelude.{◌≡◌, true, false, MatchOption};
ghost use Rattle.ynl_resource.specs.Texts.{read_path};
ghost use Rattle.ynl_queues.specs.Written.{is_below_root, row_of};

use crate::rows::{Access, QueueRow};
use std::marker::Model;
use ynl_model::{LabelCapacity, LeafSettings};
use ynl_resource::{Hundredths, Path};

/// A queue as a configuration writes it: its path is still text; its numbers are in their ranges.
#[derive(Drop)]
pub struct WrittenQueue {
    pub path: String,
    pub stopped: bool,
    pub capacity: Hundredths,
    pub maximum: Hundredths,
    pub access: Access,
    pub leaf: LeafSettings,
    pub capacities: Vec<LabelCapacity>,
}

impl Model for WrittenQueue {
    ghost use Rattle.ynl_queues.specs.Written.{WrittenRow};

    ghost Value = { WrittenRow };

    ghost use Rattle.ynl_queues.specs.Rows.{access_of};
    ghost use Rattle.std.specs.String.{string_bytes};

    ghost view = { λ r. record {
      path = string_bytes r.path;
      stopped = r.stopped;
      capacity = r.capacity;
      maximum = r.maximum;
      access = access_of r.access;
      leaf = r.leaf;
      capacities = r.capacities.items;
    } };
}

impl WrittenQueue {
    /// The queue's row, if the text is the path of a queue below root.
    #[tactic(auto, unfolding(crate::specs::Written::row_of))]
    pub(crate) fn read(self) -> Option<QueueRow>
        ensures { MatchOption result (is_below_root (read_path self.path) ≡ false) (λ row. (is_below_root (read_path self.path) ≡ true) × (row ≡ row_of self)) }
    {
        let Ok(path) = Path::parse(self.path.as_str()) else {
            return None;
        };
        if path.names().is_empty() {
            return None;
        }
        Some(QueueRow {
            path,
            stopped: self.stopped,
            capacity: self.capacity,
            maximum: self.maximum,
            access: self.access,
            leaf: self.leaf,
            capacities: self.capacities,
        })
    }
}

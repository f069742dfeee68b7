//! Which queues are stopped.

ghost use Rattle.std.specs.Prelude.{◌≡◌, ◌<◌, ◌-◌, false, length, map, Some, slice_get, slice_index_or, slice_set, IfOk};
ghost use Rattle.std.specs.List.{list_any};

use std::alloc::{AllocError, Global};
use std::marker::Model;
use ynl_queues::Config;

/// A mark for each queue below root, in the order of their numbers: whether it is stopped. A contract sees the list of marks.
#[derive(Drop)]
pub struct Stops {
    marks: Vec<bool>,
}

impl Model for Stops {
    ghost use Rattle.std.specs.Prelude.{List, Bool};

    ghost Value = { List Bool };

    ghost view = { λ s. s.marks.items };
}

impl Stops {
    /// The configured marks.
    pub fn new(alloc: Global, config: &Config) -> Result<Stops, AllocError>
        ensures { IfOk result (λ stops. stops ≡ map (λ row. row.stopped) config.now.queues) }
    {
        let marks = config
            .queues()
            .iter()
            .map(|row| row.stopped)
            .collect(alloc)?;
        Ok(Stops { marks })
    }

    /// Whether one of some queues below root is stopped.
    pub fn any(&self, queues: &[usize]) -> bool
        ensures { result ≡ list_any (λ n. slice_index_or self.now (n - 1) false) queues.now }
    {
        queues.iter().any(|n| self
            .marks
            .get(n.saturating_sub(1))
            .copied()
            .unwrap_or(false))
    }

    /// Whether a queue below root is stopped.
    pub fn of(&self, queue: usize) -> bool
        requires { queue - 1 < length self.now }
        ensures { slice_get self.now (queue - 1) ≡ Some result }
    {
        self.marks[queue.saturating_sub(1)]
    }

    /// A queue below root is stopped, or started again.
    pub fn set(&mut self, queue: usize, stopped: bool)
        requires { queue - 1 < length self.old }
        ensures { self.new ≡ slice_set self.old (queue - 1) stopped }
    {
        self.marks[queue.saturating_sub(1)] = stopped;
    }
}

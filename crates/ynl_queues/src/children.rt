//! The queues just below a queue, one after another.

ghost use Rattle.std.specs.Prelude.{◌≡◌, [], ◌∷◌, MatchOption};
ghost use Rattle.ynl_model.specs.Accepted.{children};

use crate::draft::Draft;
use crate::rows::QueueRow;
use crate::ways::parent_of;
use std::marker::Model;
use ynl_resource::Name;

/// The rows of the queues just below a queue that are still to come, in the order of the
/// configuration. A contract sees their list.
#[derive(Drop)]
pub struct Children<'a> {
    queue: &'a [Name],
    rest: &'a [QueueRow],
}

impl<'a> Model for Children<'a> {
    ghost use Rattle.std.specs.Prelude.{List};
    ghost use Rattle.std.specs.List.{filter};
    ghost use Rattle.ynl_resource.specs.Names.{same_path};
    ghost use Rattle.ynl_model.specs.Accepted.{parent_of};
    ghost use Rattle.ynl_queues.specs.declared.rows.QueueRow.{QueueRow};

    ghost Value = { List QueueRow };

    ghost view = { λ c. filter (λ row. same_path (parent_of row.path) c.queue.now) c.rest.now };
}

impl<'a> Children<'a> {
    /// The next of them.
    pub fn next(&mut self) -> Option<&'a QueueRow>
        ensures { MatchOption result ((self.old ≡ []) × (self.new ≡ [])) (λ row. self.old ≡ row.now ∷ self.new) }
    {
        while let Some((row, rest)) = self.rest.split_first() {
            self.rest = rest;
            if parent_of(row.path.names()) == self.queue {
                return Some(row);
            }
        }
        None
    }
}

impl Draft {
    /// The rows of the queues just below a queue.
    pub fn children<'a>(&'a self, queue: &'a [Name]) -> Children<'a>
        ensures { result ≡ children self.now queue.now }
    {
        Children {
            queue,
            rest: self.queues(),
        }
    }
}

//! The numbers of queues.

ghost use Rattle.std.specs.Prelude.{◌≡◌, ◌<◌, ◌∷◌, length, IfNone, IfOk, IfSome};
ghost use Rattle.ynl_resource.specs.Names.{root};
ghost use Rattle.ynl_model.specs.Service.{last_name};
ghost use Rattle.ynl_laws.specs.Ways.{IsWay};
ghost use Rattle.ynl_inventory.specs.layout.Paths.{AreChildren, CoverBelow, is_above, HasNoChild, HasNoNumber, HasNumber, IsChildOf, IsLine, IsNumberOf, IsTree, path_at, paths_of};

use crate::layout::building::{all_children, all_lines, child_of, last_names, name_of};
use std::alloc::{AllocError, Global};
use std::marker::Model;
use ynl_queues::Config;
use ynl_resource::Name;

/// The queues of a configuration under numbers. Root has 0, and the others follow in the order of the
/// configuration. A contract sees the paths of the queues below root: the last names of those on the lines.
#[derive(Drop)]
pub struct Layout {
    names: Vec<Name>,
    lines: Vec<Vec<usize>>,
    children: Vec<Vec<usize>>,
}

impl Model for Layout {
    ghost use Rattle.std.specs.Prelude.{List};
    ghost use Rattle.ynl_resource.specs.declared.paths.Path.{Path};
    ghost use Rattle.ynl_inventory.specs.layout.Building.{paths_by};
    ghost use Rattle.ynl_inventory.specs.layout.Fields.{IsLayout};

    ghost Value = { List Path };

    ghost view = { λ a. paths_by a.lines.items a.names.items };

    ghost invariant = { IsLayout };
}

impl Layout {
    /// The queues of a configuration under numbers.
    pub fn new(alloc: Global, config: &Config) -> Result<Layout, AllocError>
        ensures { IfOk result (λ layout. layout ≡ paths_of config.now) }
    {
        let lines = all_lines(alloc, config)?;
        let names = last_names(alloc, config)?;
        let children = all_children(alloc, &names, &lines)?;
        Ok(Layout {
            names,
            lines,
            children,
        })
    }

    /// How many queues there are, root among them.
    pub fn len(&self) -> usize
        ensures value { result ≡ length (root ∷ self.now) }
        ensures tree { IsTree self.now }
    {
        self.lines.len()
    }

    /// The last name of a queue below root.
    pub fn name(&self, queue: usize) -> Name
        requires below_root { 0 < queue }
        requires there { HasNumber self.now queue }
        ensures { result ≡ last_name (path_at self.now queue) }
    {
        match name_of(&self.names, queue) {
            Some(name) => name,
            None => unreachable!(),
        }
    }

    /// The numbers of the queues on the way from root to a queue, both among them.
    pub fn line(&self, queue: usize) -> &[usize]
        requires { HasNumber self.now queue }
        ensures line { IsLine self.now queue result.now }
        ensures way { IsWay (root ∷ self.now) (is_above self.now queue) result.now }
    {
        &self.lines[queue]
    }

    /// The numbers of the queues just below one, in the order of their names.
    pub fn children(&self, queue: usize) -> &[usize]
        requires { HasNumber self.now queue }
        ensures children { AreChildren self.now queue result.now }
        ensures below { CoverBelow self.now queue result.now }
    {
        &self.children[queue]
    }

    /// The number of the queue of a name just below one, if there is one.
    pub fn child(&self, queue: usize, name: &Name) -> Option<usize>
        requires { HasNumber self.now queue }
        ensures some { IfSome result (IsChildOf self.now queue name.now) }
        ensures none { IfNone result (HasNoChild self.now queue name.now) }
    {
        child_of(&self.names, self.children(queue), name)
    }

    /// The number of a queue, if there is one of this path.
    pub fn find(&self, queue: &[Name]) -> Option<usize>
        ensures some { IfSome result (IsNumberOf self.now queue.now) }
        ensures none { IfNone result (HasNoNumber self.now queue.now) }
    {
        let mut at = 0;
        for name in queue {
            at = child_of(&self.names, self.children(at), name)?;
        }
        Some(at)
    }
}

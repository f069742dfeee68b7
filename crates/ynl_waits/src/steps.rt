//! Queues on the way from root to a leaf.

ghost use Rattle.std.specs.Prelude.{◌≡◌};
ghost use Rattle.ynl_waits.specs.Steps.{path_of};

use ynl_resource::{Name, Path};

/// A queue on the way to a leaf: so many steps below root.
#[derive(Clone, Copy)]
pub struct Step {
    pub leaf: Path,
    pub depth: usize,
}

impl Step {
    /// The names of its path below root.
    pub fn names(&self) -> &[Name]
        ensures { result.now ≡ path_of self.now }
    {
        let names = self.leaf.names();
        if self.depth < names.len() {
            &names[..self.depth]
        } else {
            names
        }
    }
}

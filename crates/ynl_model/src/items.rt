//! Lists in replies.

use std::alloc::{AllocError, Global};
use std::marker::Model;

/// A list that does not change. A contract sees its items.
pub struct Items<T> {
    items: Vec<T>,
}

// By hand, so that crates above call it: one that is derived is proved anew in each of them, with all that it holds.
impl<T: Drop> Drop for Items<T> {
    fn drop(self) {
        let Items { items: _ } = self;
    }
}

impl<T> Model for Items<T> {
    ghost use Rattle.std.specs.Prelude.{List};

    ghost Value = { List T };

    ghost view = { λ l. l.items.items };
}

impl<T> Items<T> {
    ghost use Rattle.std.specs.Prelude.{◌≡◌};

    /// The list of these items.
    pub fn new(items: Vec<T>) -> Items<T>
        ensures { result ≡ items.items }
    {
        Items { items }
    }

    /// The items.
    pub fn as_slice(&self) -> &[T]
        ensures { result.now ≡ self.now }
    {
        &self.items
    }
}

impl<T: Copy> Items<T> {
    ghost use Rattle.std.specs.Prelude.{◌≡◌, IfOk};

    /// The same list once more.
    pub fn copy(&self, alloc: Global) -> Result<Items<T>, AllocError>
        ensures { IfOk result (λ copy. copy ≡ self.now) }
    {
        Ok(Items::new(Vec::from_slice(alloc, &self.items)?))
    }
}

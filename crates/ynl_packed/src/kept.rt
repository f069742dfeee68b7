//! What stands in the lists of replies.

ghost use Rattle.std.specs.Prelude.{◌≡◌, ◌++◌, ℕ, List, Option, OnOk, IfOk, ◌<◌};
ghost use Rattle.ynl_packed.specs.Fits.{FitsContainer, FitsPending, FitsItems};
ghost use Rattle.ynl_packed.specs.Spelling.{container_bytes, pending_bytes, items_bytes};
ghost use Rattle.ynl_packed.specs.Reading.{Gives, container_at, pending_at, many, items_at};

use crate::cursor::Cursor;
use crate::writing::{put_id, put_name, put_number, put_size, put_small, put_what};
use std::alloc::{AllocError, Global};
use ynl_model::{Items, Pending, Placed};

/// An item of a list that is kept.
pub(crate) trait Kept: Copy + Drop {
    ghost fits: { Self → Type 0 };

    ghost bytes: { Self → List ℕ };

    ghost at: { List ℕ → Option (Self × List ℕ) };

    /// Adds it at the end.
    fn put(&self, to: &mut Vec<u8>) -> Result<(), AllocError>
        ensures put { OnOk result (to.new.items ≡ to.old.items ++ bytes self.now) }
        ensures fits { OnOk result (fits self.now) };

    /// Reads it from the front.
    fn at(c: &mut Cursor) -> Option<Self>
        ensures { Gives (λ x. (x, c.new.rest.now)) result (at c.old.rest.now) };
}

impl Kept for Placed {
    ghost fits = { FitsContainer };

    ghost bytes = { container_bytes };

    ghost at = { container_at };

    #[tactic(auto, unfolding(crate::specs::Spelling::container_bytes))]
    fn put(&self, to: &mut Vec<u8>) -> Result<(), AllocError> {
        put_id(to, &self.id)?;
        put_name(to, &self.node)?;
        put_name(to, &self.tenant)?;
        put_name(to, &self.app)?;
        put_what(to, &self.what)?;
        put_size(to, &self.size)
    }

    #[tactic(auto, unfolding(crate::specs::Reading::container_at))]
    fn at(c: &mut Cursor) -> Option<Placed> {
        let id = c.id()?;
        let node = c.name()?;
        let tenant = c.name()?;
        let app = c.name()?;
        let what = c.what()?;
        let size = c.size()?;
        Some(Placed {
            id,
            node,
            tenant,
            app,
            what,
            size,
        })
    }
}

impl Kept for Pending {
    ghost fits = { FitsPending };

    ghost bytes = { pending_bytes };

    ghost at = { pending_at };

    #[tactic(auto, unfolding(crate::specs::Spelling::pending_bytes))]
    fn put(&self, to: &mut Vec<u8>) -> Result<(), AllocError> {
        put_small(to, self.priority)?;
        put_small(to, self.count)?;
        put_size(to, &self.size)
    }

    #[tactic(auto, unfolding(crate::specs::Reading::pending_at))]
    fn at(c: &mut Cursor) -> Option<Pending> {
        let priority = c.small()?;
        let count = c.small()?;
        let size = c.size()?;
        Some(Pending {
            priority,
            count,
            size,
        })
    }
}

/// Adds a list at the end: how many there are, and each.
pub(crate) fn put_items<T: Kept>(to: &mut Vec<u8>, items: &Items<T>) -> Result<(), AllocError>
    ensures put { OnOk result (to.new.items ≡ to.old.items ++ items_bytes T.bytes items.now) }
    ensures fits { OnOk result (FitsItems T.fits items.now) }
{
    let list = items.as_slice();
    put_number(to, list.len() as u64)?;
    for item in list {
        item.put(to)?;
    }
    Ok(())
}

/// So many, read one behind another.
fn many_at<T: Kept>(alloc: Global, count: u64, c: &mut Cursor) -> Result<Option<Vec<T>>, AllocError>
    ensures { IfOk result (λ found. Gives (λ x. (x.items, c.new.rest.now)) found (many T.at count c.old.rest.now)) }
{
    let mut items = Vec::new(alloc);
    for _ in 0..count {
        let Some(item) = T::at(c) else {
            return Ok(None);
        };
        items.push(item)?;
    }
    Ok(Some(items))
}

/// A list: how many there are, and each.
#[tactic(auto, unfolding(crate::specs::Reading::items_at))]
pub(crate) fn items_at<T: Kept>(
    alloc: Global,
    c: &mut Cursor,
) -> Result<Option<Items<T>>, AllocError>
    ensures { IfOk result (λ found. Gives (λ x. (x, c.new.rest.now)) found (items_at T.at c.old.rest.now)) }
{
    let Some(count) = c.number() else {
        return Ok(None);
    };
    match many_at(alloc, count, c)? {
        Some(items) => Ok(Some(Items::new(items))),
        None => Ok(None),
    }
}

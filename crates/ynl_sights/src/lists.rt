//! Lists of what is wanted of leaves, kept from sight to sight.

ghost use Rattle.std.specs.Prelude.{◌≡◌, ℕ, ◌<◌, None, length, option_map, IfOk, OnOk};
ghost use Rattle.ynl_inventory.specs.Rows.{Rows};
ghost use Rattle.ynl_cluster.specs.Cluster.{IsCell};
ghost use Rattle.ynl_sights.specs.Lists.{kept_at, slot_at, AreListsIn, AreListsOf, IsListOf, KeepsElsewhere};

use crate::gathering::list_of;
use crate::rows::LeafList;
use std::alloc::{AllocError, Global};
use std::sync::Arc;
use ynl_cluster::Cluster;

/// The lists of what is wanted of leaves that were made for sights and still hold. Each is shared with the sights that
/// have it, so that a sight makes none that is here. What a change makes wrong is forgotten.
pub struct LeafLists {
    alloc: Global,
    // By queue and partition.
    rows: Vec<Vec<Option<Arc<LeafList>>>>,
}

// By hand, so that crates above call it: one that is derived is proved anew in each of them, with all that it holds.
impl Drop for LeafLists {
    fn drop(self) {
        let LeafLists { alloc: _, rows: _ } = self;
    }
}

/// A place for the list on a partition, among those of a leaf.
fn reserve_in(row: &mut Vec<Option<Arc<LeafList>>>, p: usize) -> Result<(), AllocError>
    ensures place { OnOk result (p < length row.new.items) }
    ensures same { (r : ℕ) → slot_at row.new.items r ≡ slot_at row.old.items r }
{
    while row.len() <= p {
        row.push(None)?;
    }
    Ok(())
}

/// Keeps the list on a partition, among those of a leaf.
fn keep_in(
    row: &mut Vec<Option<Arc<LeafList>>>,
    p: usize,
    list: Arc<LeafList>,
) -> Result<(), AllocError>
    ensures { (v : Rows) (q : ℕ) → AreListsIn v q row.old.items → IsListOf v p q list.value → AreListsIn v q row.new.items }
{
    reserve_in(row, p)?;
    row[p] = Some(list);
    Ok(())
}

impl LeafLists {
    /// No lists, which take no memory.
    pub fn none(alloc: Global) -> LeafLists
        ensures { (v : Rows) → AreListsOf v result }
    {
        LeafLists {
            alloc,
            rows: Vec::new(alloc),
        }
    }

    /// All lists are forgotten.
    pub fn forget_all(&mut self)
        ensures { (v : Rows) → AreListsOf v self.new }
    {
        self.rows.clear();
    }

    /// The lists of a leaf are forgotten.
    pub fn forget(&mut self, leaf: usize)
        ensures gone { (p : ℕ) → kept_at self.new p leaf ≡ None }
        ensures others { KeepsElsewhere leaf self.old self.new }
    {
        if leaf < self.rows.len() {
            self.rows[leaf].clear();
        }
    }

    /// A place for the lists of a leaf.
    fn reserve(&mut self, leaf: usize) -> Result<(), AllocError>
        ensures place { OnOk result (leaf < length self.new.rows.items) }
        ensures same { (p q : ℕ) → kept_at self.new p q ≡ kept_at self.old p q }
    {
        while self.rows.len() <= leaf {
            self.rows.push(Vec::new(self.alloc))?;
        }
        Ok(())
    }

    /// Keeps a list of a leaf on a partition.
    fn keep(&mut self, p: usize, leaf: usize, list: Arc<LeafList>) -> Result<(), AllocError>
        ensures { (v : Rows) → AreListsOf v self.old → IsListOf v p leaf list.value → AreListsOf v self.new }
    {
        self.reserve(leaf)?;
        keep_in(&mut self.rows[leaf], p, list)
    }

    /// The list of a leaf on a partition, if it is kept.
    fn find(&self, p: usize, leaf: usize) -> Option<&Arc<LeafList>>
        ensures { option_map (λ list. list.now.value) result ≡ kept_at self.now p leaf }
    {
        if leaf >= self.rows.len() || p >= self.rows[leaf].len() {
            return None;
        }
        self.rows[leaf][p].as_ref()
    }

    /// The list of a leaf on a partition. It is made if it is not kept, and kept then.
    pub(crate) fn list(
        &mut self,
        cluster: &Cluster,
        p: u8,
        leaf: usize,
    ) -> Result<Arc<LeafList>, AllocError>
        requires there { IsCell cluster.now p leaf }
        requires lists { AreListsOf cluster.now.rows self.old }
        ensures list { IfOk result (λ list. IsListOf cluster.now.rows p leaf list.value) }
        ensures lists { AreListsOf cluster.now.rows self.new }
    {
        if let Some(list) = self.find(p as usize, leaf) {
            return Ok(Arc::try_clone(list)?);
        }
        let list = Arc::new(self.alloc, list_of(self.alloc, cluster, p, leaf)?)?;
        self.keep(p as usize, leaf, Arc::try_clone(&list)?)?;
        Ok(list)
    }
}

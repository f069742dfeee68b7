//! The chains of an application's containers.

ghost use Rattle.std.specs.Prelude.{◌≡◌, ◌<◌, ◌++◌, ◌∷◌, ℕ, [], Some, IsOk, OnOk, OnErr, nat_eq, slice_get, slice_set};
ghost use Rattle.std.specs.List.{position_or_len};
ghost use Rattle.smallvec.specs.SmallVec.{small_vec_len};
ghost use Rattle.ynl_slots.specs.Slots.{IsLive, HasDistinctNumbers, with_row};
ghost use Rattle.ynl_tables.specs.apps.Chains.{chain_of, with_place};

use smallvec::SmallVec;
use std::alloc::{AllocError, Global};
use std::marker::Model;
use ynl_slots::Chain;

/// The chains of an application's containers, by the numbers of their partitions. They are few, and the first two take no memory. A contract sees the
/// chains under those numbers, in the order in which their places were made.
#[derive(Drop)]
pub struct Chains {
    rows: SmallVec<(u8, Chain), 2>,
}

impl Model for Chains {
    ghost use Rattle.std.specs.Prelude.{List, ℕ};
    ghost use Rattle.ynl_slots.specs.declared.chain.Chain.{Chain};
    ghost use Rattle.ynl_slots.specs.Slots.{HasDistinctNumbers};

    ghost Value = { List (ℕ × Chain) };

    ghost view = { λ a. a.rows.items };

    ghost invariant = { λ a. HasDistinctNumbers a.rows.items };
}

impl Chains {
    /// No chains. It takes no memory.
    pub fn new(alloc: Global) -> Chains
        ensures { result ≡ [] }
    {
        Chains {
            rows: SmallVec::new(alloc),
        }
    }

    /// The chain of a partition, which has no containers where it has no place.
    pub fn get(&self, partition: u8) -> Chain
        ensures value { result ≡ chain_of partition self.now }
        ensures distinct { HasDistinctNumbers self.now }
    {
        let rows = self.rows.as_slice();
        match rows.get(place_of(rows, partition)) {
            Some(row) => row.1,
            None => Chain::new(),
        }
    }

    /// Makes a place for the chain of a partition, if it has none. It fails if memory is refused.
    pub fn reserve(&mut self, partition: u8) -> Result<(), AllocError>
        ensures ok { OnOk result (self.new ≡ with_place partition self.old) }
        ensures err { OnErr result (self.new ≡ self.old) }
        ensures there { IsLive partition self.old → IsOk result }
        ensures place { OnOk result (IsLive partition self.new) }
        ensures same { (p : ℕ) → chain_of p self.new ≡ chain_of p self.old }
    {
        if place_of(self.rows.as_slice(), partition) < self.rows.len() {
            return Ok(());
        }
        push_row(&mut self.rows, (partition, Chain::new()))?;
        Ok(())
    }

    /// Sets the chain of a partition that has a place. It takes no memory.
    pub fn set(&mut self, partition: u8, chain: Chain)
        requires { IsLive partition self.old }
        ensures { self.new ≡ with_row partition chain self.old }
    {
        let place = place_of(self.rows.as_slice(), partition);
        set_row(&mut self.rows, place, chain);
    }
}

/// Where the chain of a partition is, or else how many there are.
fn place_of(rows: &[(u8, Chain)], partition: u8) -> usize
    ensures { result ≡ position_or_len (λ row. nat_eq partition row.0) rows.now }
{
    for i in 0..rows.len() {
        if rows[i].0 == partition {
            return i;
        }
    }
    rows.len()
}

/// The row comes last. Of most applications there are one or two for good, which take no memory, and so no room is taken for more.
fn push_row(rows: &mut SmallVec<(u8, Chain), 2>, row: (u8, Chain)) -> Result<(), AllocError>
    ensures ok { OnOk result (rows.new.items ≡ rows.old.items ++ row ∷ []) }
    ensures err { OnErr result (rows.new.items ≡ rows.old.items) }
{
    rows.reserve_exact(1)?;
    rows.push_reserved(row);
    Ok(())
}

/// The row in a place has another chain.
fn set_row(rows: &mut SmallVec<(u8, Chain), 2>, place: usize, chain: Chain)
    requires { place < small_vec_len rows.old }
    ensures { (row : _) → slice_get rows.old.items place ≡ Some row
        → rows.new.items ≡ slice_set rows.old.items place (row.0, chain) }
{
    if let Some(row) = rows.get_mut(place) {
        row.1 = chain;
    }
}

//! Values in places, and the first place from some place on whose value passes a test.

ghost use Rattle.std.specs.Prelude.{◌≡◌, ◌≤◌, ◌<◌, ◌*◌, [], length, replicate, slice_set, slice_index_or, All, IfSome, IfNone, OnOk, OnErr};
ghost use Rattle.ynl_lanes.specs.firsts.Firsts.{IsFilledUp, IsFirst, NonePasses};

use crate::firsts::least::{Least, Test};
use crate::firsts::tree;
use std::alloc::{AllocError, Global};
use std::marker::Model;

/// Values in places 0, 1, .. A contract sees the list of the values. A place that was not set has the
/// value `none`.
///
/// Those in front are the leaves of a binary tree. Each node has a value at or below those of its children, so
/// a search passes over all leaves under a node that fails the test. Behind them is `none` alone, and no memory
/// is touched: most places of most lists never have another value.
#[derive(Drop)]
pub struct Firsts<T: Least> {
    /// It has room for the nodes above all places.
    tree: Vec<T>,
}

impl<T: Least> Model for Firsts<T> {
    ghost use Rattle.std.specs.Prelude.{List, ◌/◌, vec_capacity};
    ghost use Rattle.ynl_lanes.specs.firsts.Tree.{values_of, filled_up, IsTree};

    ghost Value = { List T };

    ghost view = { λ a. filled_up T.none (vec_capacity a.tree / 2) (values_of a.tree.items) };

    ghost invariant = { λ a. IsTree T.below a.tree.items };
}

impl<T: Least> Firsts<T> {
    /// No places yet.
    pub fn new(alloc: Global) -> Firsts<T>
        ensures { result ≡ [] }
    {
        Firsts {
            tree: Vec::new(alloc),
        }
    }

    /// How many places there are.
    pub fn room(&self) -> usize
        ensures { result ≡ length self.now }
    {
        self.tree.capacity() / 2
    }

    /// A value at or below those in all places; `none` if there are no places.
    pub fn root(&self) -> T
        ensures below { All (T.below result) self.now }
        ensures none { length self.now ≡ 0 → result ≡ T.none }
    {
        tree::root(self.tree.as_slice())
    }

    /// The value in a place; `none` beyond the last place.
    pub fn get(&self, place: usize) -> T
        ensures { result ≡ slice_index_or self.now place T.none }
    {
        tree::value_at(self.tree.as_slice(), place)
    }

    /// Makes places until there are at least `count`, with `none` in the new ones. No other call takes
    /// memory. Where places are made, there are then a power of two of them. The error comes if memory
    /// is refused, and if `count` is 2^61 or more.
    pub fn reserve(&mut self, count: usize) -> Result<(), AllocError>
        ensures values { IsFilledUp T.none self.old self.new }
        ensures enough { OnOk result (count ≤ length self.new) }
        ensures same { count ≤ length self.old → self.new ≡ self.old }
        ensures most { length self.old < count → length self.new ≤ 2 * count }
        ensures err { OnErr result (self.new ≡ self.old) }
    {
        if count <= self.room() {
            return Ok(());
        }
        // No memory has room for more.
        if count > usize::MAX / 8 {
            return Err(AllocError);
        }
        let nodes = 2 * count.next_power_of_two();
        let alloc = *self.tree.allocator();
        self.tree = tree::copy(alloc, self.tree.as_slice(), nodes)?;
        Ok(())
    }

    /// Puts a value in a place. It takes no memory, and at most as many steps as the tree is high.
    pub fn set(&mut self, place: usize, value: T)
        requires { place < length self.old }
        ensures { self.new ≡ slice_set self.old place value }
    {
        if place >= self.tree.len() / 2 && value.same(T::none()) {
            return;
        }
        tree::spread(&mut self.tree, place);
        tree::put(self.tree.as_mut_slice(), place, value);
    }

    /// Puts `none` in all places.
    pub fn clear(&mut self)
        ensures { self.new ≡ replicate (length self.old) T.none }
    {
        self.tree.clear();
    }

    /// The first place, not before `from`, whose value passes the test. It tests a few times as many
    /// nodes as the tree is high, where a node fails if all values under it do.
    pub fn next<P: Test<T>>(&self, from: usize, test: &P) -> Option<usize>
        ensures none { IfNone result (NonePasses (P.passes test.now) self.now from) }
        ensures first { IfSome result (IsFirst (P.passes test.now) self.now from) }
    {
        let found = tree::search(self.tree.as_slice(), from, test);
        if found.is_some() {
            return found;
        }
        let behind = from.max(self.tree.len() / 2);
        if behind < self.room() && test.passes(&T::none()) {
            Some(behind)
        } else {
            None
        }
    }
}

//! A binary tree in one list: the root at 1, the children of the node at `k` at `2 * k` and `2 * k + 1`, and the
//! leaves, which are the values, in the second half. A node is at or below its children, so it is at or below all
//! leaves under it.

ghost use Rattle.std.specs.Prelude.{◌≡◌, ◌≤◌, ◌<◌, ◌+◌, ◌-◌, ◌*◌, ◌/◌, ◌^◌, ◌++◌, ℕ, length, replicate, slice_set, slice_index_or, vec_capacity, All, HoldsAt, IfOk, IfSome, IfNone};
ghost use Rattle.ynl_lanes.specs.firsts.Firsts.{IsFilledUp, IsFirst, NonePasses};
ghost use Rattle.ynl_lanes.specs.firsts.Tree.{values_of, IsOrdered, IsOrderedBut, IsShape, IsTree};

use crate::firsts::least::{Least, Test};
use std::alloc::{AllocError, Global};

/// The value in a place.
pub fn value_at<T: Least>(tree: &[T], place: usize) -> T
    requires { IsShape tree.now }
    ensures { result ≡ slice_index_or (values_of tree.now) place T.none }
{
    let room = tree.len() / 2;
    if place < room {
        tree[room + place]
    } else {
        T::none()
    }
}

/// The root, which is at or below all values and at or below `none`; `none` if there are none.
pub fn root<T: Least>(tree: &[T]) -> T
    requires { IsTree T.below tree.now }
    ensures below { All (T.below result) (values_of tree.now) }
    ensures below_none { T.below result T.none }
    ensures none { length (values_of tree.now) ≡ 0 → result ≡ T.none }
{
    if tree.len() < 2 {
        T::none()
    } else {
        tree[1].least(T::none())
    }
}

/// The first place, not before `from`, whose value passes the test. `node` is `height` levels above the
/// leaves, and no leaf before its first one passes. If it passes, its first child is next. If it does
/// not, no leaf under it passes, and next is the highest node whose first leaf comes after its last.
pub fn search<T: Least, P: Test<T>>(tree: &[T], from: usize, test: &P) -> Option<usize>
    requires { IsTree T.below tree.now }
    ensures none { IfNone result (NonePasses (P.passes test.now) (values_of tree.now) from) }
    ensures first { IfSome result (IsFirst (P.passes test.now) (values_of tree.now) from) }
{
    let room = tree.len() / 2;
    if from >= room {
        return None;
    }
    let leaf = room + from;
    let mut height = leaf.trailing_zeros();
    let mut node = leaf >> height;
    'nodes: loop {
        if test.passes(&tree[node]) {
            if height == 0 {
                return Some(node - room);
            }
            height -= 1;
            node *= 2;
        } else {
            let next = (node + 1) << height;
            if next >= tree.len() {
                return None;
            }
            height = next.trailing_zeros();
            node = next >> height;
        }
    }
}

/// A value for a node, at or below its children.
fn least_below<T: Least>(tree: &[T], node: usize) -> T
    requires { 2 * node + 1 < length tree.now }
    ensures { (i : ℕ) → i / 2 ≡ node → HoldsAt (T.below result) tree.now i }
{
    tree[2 * node].least(tree[2 * node + 1])
}

/// Brings the nodes above one that changed up to date, as far as they change.
fn climb<T: Least>(tree: &mut [T], changed: usize)
    requires shape { IsShape tree.old }
    requires some { 0 < changed }
    requires inside { changed < length tree.old }
    requires ordered { IsOrderedBut T.below (changed / 2) tree.old }
    ensures ordered { IsOrdered T.below tree.new }
    ensures values { values_of tree.new ≡ values_of tree.old }
{
    let mut node = changed;
    while node > 1 {
        node /= 2;
        let least = least_below(tree, node);
        if tree[node].same(least) {
            return;
        }
        tree[node] = least;
    }
}

/// Puts a value in a place.
pub fn put<T: Least>(tree: &mut [T], place: usize, value: T)
    requires tree { IsTree T.below tree.old }
    requires inside { place < length (values_of tree.old) }
    ensures tree { IsTree T.below tree.new }
    ensures values { values_of tree.new ≡ slice_set (values_of tree.old) place value }
{
    let leaf = tree.len() / 2 + place;
    if tree[leaf].same(value) {
        return;
    }
    tree[leaf] = value;
    climb(tree, leaf);
}

/// Makes all nodes above the leaves anew.
fn settle<T: Least>(tree: &mut [T])
    requires { IsShape tree.old }
    ensures tree { IsTree T.below tree.new }
    ensures values { values_of tree.new ≡ values_of tree.old }
{
    let mut node = tree.len() / 2;
    while node > 1 {
        node -= 1;
        tree[node] = least_below(tree, node);
    }
}

/// A copy with room for so many nodes. To grow the list where it stands may touch all of its memory, also what no node has
/// used yet.
pub fn copy<T: Least>(alloc: Global, tree: &[T], room: usize) -> Result<Vec<T>, AllocError>
    requires { length tree.now ≤ room }
    ensures nodes { IfOk result (λ copy. copy.items ≡ tree.now) }
    ensures room { IfOk result (λ copy. vec_capacity copy ≡ room) }
{
    let mut copy = Vec::with_capacity(alloc, room)?;
    for i in 0..tree.len() {
        copy.push_reserved(tree[i]);
    }
    Ok(copy)
}

/// Makes nodes, with `none`, until there are so many.
fn widen<T: Least>(tree: &mut Vec<T>, count: usize)
    requires more { length tree.old.items ≤ count }
    requires room { count ≤ vec_capacity tree.old }
    ensures nodes { tree.new.items ≡ tree.old.items ++ replicate (count - length tree.old.items) T.none }
    ensures capacity { vec_capacity tree.new ≡ vec_capacity tree.old }
{
    let more = count - tree.len();
    for _node in 0..more {
        tree.push_reserved(T::none());
    }
}

/// Makes leaves, with `none`, behind the others until there are so many. The nodes above them are not right yet.
fn add_leaves<T: Least>(tree: &mut Vec<T>, count: usize)
    requires shape { IsShape tree.old.items }
    requires more { length (values_of tree.old.items) ≤ count }
    requires room { 2 * count ≤ vec_capacity tree.old }
    requires small { count < 2 ^ 62 }
    ensures shape { IsShape tree.new.items }
    ensures count { length (values_of tree.new.items) ≡ count }
    ensures values { IsFilledUp T.none (values_of tree.old.items) (values_of tree.new.items) }
    ensures capacity { vec_capacity tree.new ≡ vec_capacity tree.old }
{
    let leaves = tree.len() / 2;
    widen(tree, 2 * count);
    tree.copy_within(leaves..2 * leaves, count);
}

/// Makes leaves, with `none`, behind the others until there is one in a place. The tree has room for them, so that it takes
/// no memory.
pub fn spread<T: Least>(tree: &mut Vec<T>, place: usize)
    requires tree { IsTree T.below tree.old.items }
    requires room { place < vec_capacity tree.old / 2 }
    requires small { vec_capacity tree.old < 2 ^ 63 }
    ensures tree { IsTree T.below tree.new.items }
    ensures inside { place < length (values_of tree.new.items) }
    ensures values { IsFilledUp T.none (values_of tree.old.items) (values_of tree.new.items) }
    ensures capacity { vec_capacity tree.new ≡ vec_capacity tree.old }
{
    if place < tree.len() / 2 {
        return;
    }
    let count = (place + 1).next_power_of_two().min(tree.capacity() / 2);
    add_leaves(tree, count);
    settle(tree.as_mut_slice());
}

//! Rows in slots, with a list of the free ones.

ghost use Rattle.std.specs.Prelude.{◌≡◌, ◌≤◌, ◌<◌, ◌+◌, ◌-◌, ◌^◌, ◌++◌, ◌∷◌, ◌==◌, [], length, map, vec_capacity, Some, IsSome, IsOk, OnOk, IfOk, IfSome, if◌then◌else◌, nat_eq, option_copied};
ghost use Rattle.std.specs.Map.{lookup};
ghost use Rattle.std.specs.Borrow.{Lends, sem};
ghost use Rattle.ynl_slots.specs.Slots.{number_in, IsLive, IsAfter, IsUnused, IsOnly, HasDistinctNumbers, without};
ghost use Rattle.ynl_slots.specs.Kept.{after_of, after_set, before_of, before_set, changed, filled, row_in, row_of, slot_at, slot_with, CanFill, Fills};

use crate::growth::grows_by;
use crate::number::{END, MaybeRow};
use std::alloc::{AllocError, Global};
use std::marker::Model;
use std::mem;
use std::ops::{Index, IndexMut};

#[derive(Drop)]
enum Slot<T> {
    /// The next free slot, or how many slots there are.
    Free(u32),
    /// A row, and the slots of the rows pushed before and after it.
    Live { before: u32, after: u32, row: T },
}

/// Rows under the numbers of their slots. A row is found by its number in constant time. A removal takes no
/// memory, moves no other row, and leaves its slot to a later push. A contract sees the pairs of a number and a
/// row in the order of the pushes, and how many pushes take no memory.
#[derive(Drop)]
pub struct Slots<T> {
    slots: Vec<Slot<T>>,
    len: usize,
    /// The first free slot, or how many slots there are.
    free: u32,
    /// The slots of the rows that were pushed first and last.
    first: u32,
    last: u32,
}

impl<T> Model for Slots<T> {
    ghost use Rattle.ynl_slots.specs.Slots.{Numbered, numbered_code};

    ghost Value = { Numbered T };

    ghost coded = { numbered_code T.code };

    ghost use Rattle.ynl_slots.specs.declared.slots.Slot.{Slot};
    ghost use Rattle.ynl_slots.specs.Kept.{numbered, IsSlots};

    ghost view = { numbered };

    ghost invariant = { IsSlots };
}

impl<T> Slot<T> {
    ghost use Rattle.ynl_slots.specs.contracts.slots.Slot.{the_row};

    fn row_mut(&mut self) -> &mut T
        requires { IsSome (row_of self.old) }
        ensures* end { sem 𝓛 (Lends (the_row T.row) T.row self.entry result (slot_with self.old)) }
        ensures value { row_of self.old ≡ Some result.now }
    {
        match self {
            Slot::Live { row, .. } => row,
            Slot::Free(_) => unreachable!(),
        }
    }

    /// The row, if there is one, is followed by this one.
    fn set_after(&mut self, to: u32)
        ensures { self.new ≡ after_set to self.old }
    {
        match self {
            Slot::Live { after, .. } => *after = to,
            Slot::Free(_) => {}
        }
    }

    /// The row, if there is one, follows this one.
    fn set_before(&mut self, to: u32)
        ensures { self.new ≡ before_set to self.old }
    {
        match self {
            Slot::Live { before, .. } => *before = to,
            Slot::Free(_) => {}
        }
    }
}

impl<T> Slots<T> {
    /// Starts with no row, and takes no memory.
    pub fn new(alloc: Global) -> Slots<T>
        ensures { result.entries ≡ [] }
    {
        Slots {
            slots: Vec::new(alloc),
            len: 0,
            free: 0,
            first: END,
            last: END,
        }
    }

    /// How many rows there are.
    pub fn len(&self) -> usize
        ensures value { result ≡ length self.now.entries }
        ensures distinct { HasDistinctNumbers self.now.entries }
    {
        self.len
    }

    /// Whether there is no row.
    pub fn is_empty(&self) -> bool
        ensures { result ≡ (length self.now.entries == 0) }
    {
        self.len == 0
    }

    /// Reserves room for one more row. It fails if memory is refused, and if there are 2^32 - 1 rows.
    pub fn reserve_one(&mut self) -> Result<(), AllocError>
        ensures entries { self.new.entries ≡ self.old.entries }
        ensures ok { OnOk result (0 < self.new.room) }
        ensures had_room { 0 < self.old.room → IsOk result }
        ensures room { self.old.room ≤ self.new.room }
    {
        if self.len >= u32::MAX as usize {
            return Err(AllocError);
        }
        if self.len < self.slots.capacity() {
            return Ok(());
        }
        self.slots.reserve(grows_by(self.len))
    }

    /// Reserves room for so many more rows. It fails if memory is refused, and past 2^32 - 1 rows.
    pub fn reserve(&mut self, count: u32) -> Result<(), AllocError>
        ensures entries { self.new.entries ≡ self.old.entries }
        ensures ok { OnOk result (count ≤ self.new.room) }
        ensures had_room { count ≤ self.old.room → IsOk result }
        ensures room { self.old.room ≤ self.new.room }
    {
        if count as usize > u32::MAX as usize - self.len {
            return Err(AllocError);
        }
        let spare = self.slots.len() - self.len;
        if count as usize <= spare {
            return Ok(());
        }
        self.slots.reserve(count as usize - spare)
    }

    /// Adds a row as the last, in the slot that was freed last or else in a new one. It returns the slot's number.
    pub fn push(&mut self, row: T) -> u32
        requires { 0 < self.old.room }
        ensures entries { self.new.entries ≡ self.old.entries ++ (result, row) ∷ [] }
        ensures unused { IsUnused result self.old.entries }
        ensures small { result < 2 ^ 32 - 1 }
        ensures room { self.old.room ≡ self.new.room + 1 }
    {
        let number = self.free;
        let live = Slot::Live {
            before: self.last,
            after: END,
            row,
        };
        self.free = fill(&mut self.slots, number, live);
        set_after(&mut self.slots, self.last, number);
        self.first = end_of(self.first, self.first, number);
        self.last = number;
        self.len += 1;
        number
    }

    /// The number of a row, as one that may be of none.
    pub(crate) fn number(&self, number: u32) -> MaybeRow
        requires { IsLive number self.now.entries }
        ensures { result ≡ Some number }
    {
        // Opens the slots, which end before the number of no row.
        let _slots = self.slots.len();
        MaybeRow::of(number)
    }

    /// The row under a number, if there is one.
    pub fn get(&self, number: u32) -> Option<&T>
        ensures value { option_copied result ≡ lookup (nat_eq number) self.now.entries }
        ensures only { IfSome result (λ r. IsOnly number r.now self.now.entries) }
    {
        row_at(&self.slots, number)
    }

    /// The number of the row that was pushed first, if there is one.
    pub fn first(&self) -> Option<u32>
        ensures { result ≡ number_in self.now.entries 0 }
    {
        MaybeRow::of(self.first).get()
    }

    /// The number of the row that was pushed next after the one under a number, if there is one.
    pub fn next(&self, number: u32) -> Option<u32>
        requires { IsLive number self.now.entries }
        ensures { IsAfter number self.now.entries result }
    {
        let after = after_at(&self.slots, number);
        MaybeRow::of(after).get()
    }

    /// Takes out the row under a number. The next push fills its slot.
    pub fn remove(&mut self, number: u32) -> T
        requires { IsLive number self.old.entries }
        ensures value { lookup (nat_eq number) self.old.entries ≡ Some result }
        ensures entries { self.new.entries ≡ without number self.old.entries }
        ensures room { self.old.room ≤ self.new.room }
    {
        let before = before_at(&self.slots, number);
        let after = after_at(&self.slots, number);
        set_after(&mut self.slots, before, after);
        set_before(&mut self.slots, after, before);
        self.first = end_of(self.first, before, after);
        self.last = end_of(self.last, after, before);
        let free = Slot::Free(self.free);
        match mem::replace(&mut self.slots[number as usize], free) {
            Slot::Live {
                before: _,
                after: _,
                row,
            } => {
                self.len -= 1;
                self.free = number;
                row
            }
            Slot::Free(_) => unreachable!(),
        }
    }
}

impl<T> Index<u32> for Slots<T> {
    type Output = T;

    ghost can_index = { λ s number. IsLive number s.entries };

    ghost index_gives = { λ s number row. lookup (nat_eq number) s.entries ≡ Some row };

    fn index(&self, number: u32) -> &T {
        match &self.slots[number as usize] {
            Slot::Live { row, .. } => row,
            Slot::Free(_) => unreachable!(),
        }
    }
}

impl<T> IndexMut<u32> for Slots<T> {
    ghost use Rattle.ynl_slots.specs.Lends.{lends_row};

    fn index_mut(&mut self, number: u32) -> &mut T
        requires { IsLive number self.old.entries }
        ensures* writes_back { sem 𝓛 (lends_row T.row self.entry number result) }
        ensures value { lookup (nat_eq number) self.old.entries ≡ Some result.now }
    {
        self.slots[number as usize].row_mut()
    }
}

impl<T: Copy> Slots<T> {
    /// The rows in the order of their pushes.
    pub fn copies(&self, alloc: Global) -> Result<Vec<T>, AllocError>
        ensures { IfOk result (λ rows. rows.items ≡ map (λ e. e.1) self.now.entries) }
    {
        let mut rows = Vec::new(alloc);
        rows.reserve(self.len())?;
        let mut next = self.first();
        while let Some(number) = next {
            rows.push(self[number])?;
            next = self.next(number);
        }
        Ok(rows)
    }
}

/// The end of the rows after a change: it is the same if a row stands beside the one that came or went.
fn end_of(end: u32, beside: u32, other: u32) -> u32
    ensures { result ≡ (if nat_eq beside (2 ^ 32 - 1) then other else end) }
{
    if beside == END { other } else { end }
}

/// The number of the row pushed before the one under a number.
fn before_at<T>(slots: &[Slot<T>], number: u32) -> u32
    ensures { result ≡ before_of (slot_at slots.now number) }
{
    match slots.get(number as usize) {
        Some(Slot::Live { before, .. }) => *before,
        _ => END,
    }
}

/// The number of the row pushed after it.
fn after_at<T>(slots: &[Slot<T>], number: u32) -> u32
    ensures { result ≡ after_of (slot_at slots.now number) }
{
    match slots.get(number as usize) {
        Some(Slot::Live { after, .. }) => *after,
        _ => END,
    }
}

/// The row under a number, if there is one, is followed by this one.
fn set_after<T>(slots: &mut Vec<Slot<T>>, number: u32, to: u32)
    ensures items { slots.new.items ≡ changed (after_set to) number slots.old.items }
    ensures capacity { vec_capacity slots.new ≡ vec_capacity slots.old }
{
    if (number as usize) < slots.len() {
        slots[number as usize].set_after(to);
    }
}

/// The row under a number, if there is one, follows this one.
fn set_before<T>(slots: &mut Vec<Slot<T>>, number: u32, to: u32)
    ensures items { slots.new.items ≡ changed (before_set to) number slots.old.items }
    ensures capacity { vec_capacity slots.new ≡ vec_capacity slots.old }
{
    if (number as usize) < slots.len() {
        slots[number as usize].set_before(to);
    }
}

/// Fills the first free slot, or one more if none is free. It returns the next free slot.
fn fill<T>(slots: &mut Vec<Slot<T>>, free: u32, live: Slot<T>) -> u32
    requires live { IsSome (row_of live) }
    requires can { CanFill slots.old.items free (vec_capacity slots.old) }
    ensures items { slots.new.items ≡ filled free live slots.old.items }
    ensures sound { Fills slots.old.items free slots.new.items result }
    ensures capacity { vec_capacity slots.new ≡ vec_capacity slots.old }
{
    if free as usize == slots.len() {
        slots.push_reserved(live);
        return free + 1;
    }
    match mem::replace(&mut slots[free as usize], live) {
        Slot::Free(next) => next,
        Slot::Live { .. } => unreachable!(),
    }
}

/// The row in the slot of a number.
fn row_at<T>(slots: &Vec<Slot<T>>, number: u32) -> Option<&T>
    ensures { option_copied result ≡ row_in slots.now.items number }
{
    match slots.get(number as usize) {
        Some(Slot::Live { row, .. }) => Some(row),
        _ => None,
    }
}

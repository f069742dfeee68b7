//! Chains of rows: each row names the one before it and the one after it.

ghost use Rattle.std.specs.Prelude.{◌≡◌, ℕ, Option, Some, is_some, if◌then◌else◌, []};
ghost use Rattle.std.specs.Option.{ForSome};
ghost use Rattle.ynl_slots.specs.declared.chain.Links.{Links};
ghost use Rattle.ynl_slots.specs.Slots.{IsLive};
ghost use Rattle.ynl_slots.specs.Chain.{IsChain, IsLinked, IsIn, SetsLinks, SetsNext, SetsPrev, Appends, AppendsAt, Removes, RemovesAt};

use crate::number::MaybeRow;
use crate::slots::Slots;

/// The numbers of the rows before and after a row of a chain.
#[derive(Clone, Copy)]
pub struct Links {
    pub prev: MaybeRow,
    pub next: MaybeRow,
}

/// A row that may stand in a chain. `K` tells the chains apart if a row may stand in several.
pub trait Linked<K> {
    ghost links: { Self → Links };

    ghost with_links: { Self → Links → Self };

    fn links(&self) -> Links
        ensures { result ≡ links self.now };

    fn set_links(&mut self, to: Links)
        ensures { self.new ≡ with_links self.old to };

    ghost relinked: { (row : Self) (to : Links) → links (with_links row to) ≡ to };
}

/// The ends of a chain of rows. The rows between them are found by their links.
#[derive(Clone, Copy)]
pub struct Chain {
    first: MaybeRow,
    last: MaybeRow,
}

impl Default for Chain {
    fn default() -> Chain {
        Chain::new()
    }
}

impl Chain {
    /// Starts with no row.
    pub fn new() -> Chain
        ensures { (at : ℕ → Option Links) → IsChain at result [] }
    {
        Chain {
            first: MaybeRow::NONE,
            last: MaybeRow::NONE,
        }
    }

    /// The number of the first row.
    pub fn first(&self) -> Option<u32>
        ensures { result ≡ self.now.first }
    {
        self.first.get()
    }

    /// Adds a row at the end of the chain.
    pub fn append<K, T: Linked<K>>(&mut self, rows: &mut Slots<T>, number: u32)
        requires live { IsLive number rows.old.entries }
        requires linked { IsLinked T.links rows.old.entries self.old }
        ensures chain { Appends T.links rows.old.entries self.old number rows.new.entries self.new }
        ensures rows { AppendsAt T.links T.with_links self.old.last number
            rows.old.entries rows.new.entries }
        ensures room { rows.new.room ≡ rows.old.room }
    {
        let last = rows.number(number);
        let prev = self.last;
        set_next::<K, T>(rows, prev, last);
        let links = Links {
            prev,
            next: MaybeRow::NONE,
        };
        relink::<K, T>(rows, number, links);
        self.first = self.first.or(last);
        self.last = last;
    }

    /// Takes a row out of the chain. Its own links stay.
    pub fn remove<K, T: Linked<K>>(&mut self, rows: &mut Slots<T>, number: u32)
        requires { IsIn T.links rows.old.entries self.old number }
        ensures chain { Removes T.links rows.old.entries self.old number rows.new.entries self.new }
        ensures rows { RemovesAt T.links T.with_links number rows.old.entries rows.new.entries }
        ensures room { rows.new.room ≡ rows.old.room }
    {
        let links = rows[number].links();
        set_next::<K, T>(rows, links.prev, links.next);
        set_prev::<K, T>(rows, links.next, links.prev);
        self.first = end_of(self.first, links.prev, links.next);
        self.last = end_of(self.last, links.next, links.prev);
    }
}

/// The end of a chain after a row went: it is the same if the row had one beside it there.
fn end_of(end: MaybeRow, beside: MaybeRow, other: MaybeRow) -> MaybeRow
    ensures { result ≡ (if is_some beside then end else other) }
{
    if beside.get().is_some() { end } else { other }
}

/// Writes the links of a row.
fn relink<K, T: Linked<K>>(rows: &mut Slots<T>, number: u32, links: Links)
    requires { IsLive number rows.old.entries }
    ensures links { SetsLinks T.with_links (Some number) (λ _. links)
        rows.old.entries rows.new.entries }
    ensures room { rows.new.room ≡ rows.old.room }
{
    rows[number].set_links(links);
}

/// Writes which row comes after a row, if there is one.
fn set_next<K, T: Linked<K>>(rows: &mut Slots<T>, number: MaybeRow, next: MaybeRow)
    requires { ForSome number (λ n. IsLive n rows.old.entries) }
    ensures links { SetsNext T.links T.with_links number next rows.old.entries rows.new.entries }
    ensures room { rows.new.room ≡ rows.old.room }
{
    if let Some(number) = number.get() {
        let row = &mut rows[number];
        let prev = row.links().prev;
        row.set_links(Links { prev, next });
    }
}

/// Writes which row comes before a row, if there is one.
fn set_prev<K, T: Linked<K>>(rows: &mut Slots<T>, number: MaybeRow, prev: MaybeRow)
    requires { ForSome number (λ n. IsLive n rows.old.entries) }
    ensures links { SetsPrev T.links T.with_links number prev rows.old.entries rows.new.entries }
    ensures room { rows.new.room ≡ rows.old.room }
{
    if let Some(number) = number.get() {
        let row = &mut rows[number];
        let next = row.links().next;
        row.set_links(Links { prev, next });
    }
}

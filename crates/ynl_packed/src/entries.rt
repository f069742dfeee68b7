//! Lists of entries of which each has a reply.

ghost use Rattle.std.specs.Prelude.{◌≡◌, ◌+◌, ◌^◌, ◌<◌, ◌++◌, ◌∷◌, ◌↔◌, [], length, slice_index_or, IfOk, OnOk, OnErr, IsTrue};
ghost use Rattle.ynl_packed.specs.Lists.{answered, entry_at};
ghost use Rattle.ynl_packed.specs.Reading.{Gives};

use crate::cursor::Cursor;
use crate::event_reading::{any_event, event_at};
use crate::event_writing::put_event;
use crate::events::Events;
use crate::pieces::Pieces;
use crate::replies::{put_reply, reply_at};
use std::alloc::{AllocError, Global};
use std::marker::Model;
use ynl_model::{Entry, Event, Reply};

/// A list of events with their replies, each kept as its bytes. A contract sees the list of entries.
pub struct Entries {
    alloc: Global,
    pieces: Pieces,
    // The bytes of the entry that is added.
    entry: Vec<u8>,
}

// By hand, so that crates above call it: one that is derived is proved anew in each of them, with all that it holds.
impl Drop for Entries {
    fn drop(self) {
        let Entries {
            alloc: _,
            pieces: _,
            entry: _,
        } = self;
    }
}

impl Model for Entries {
    ghost use Rattle.std.specs.Prelude.{List};
    ghost use Rattle.ynl_model.specs.declared.entries.Entry.{Entry};

    ghost Value = { List Entry };

    ghost use Rattle.ynl_packed.specs.EntriesFields.{entries_of, HasEntries};

    ghost view = { entries_of };

    ghost invariant = { HasEntries };
}

impl Entries {
    /// No entry.
    pub fn new(alloc: Global) -> Entries
        ensures { result ≡ [] }
    {
        Entries {
            alloc,
            pieces: Pieces::new(alloc),
            entry: Vec::new(alloc),
        }
    }

    /// How many there are.
    pub fn len(&self) -> usize
        ensures value { result ≡ length self.now }
        ensures counted { result + 1 < 2 ^ 64 }
    {
        self.pieces.len()
    }

    /// Puts an event with its reply behind all others. `Err` only if memory is refused; nothing has changed then.
    pub fn push(&mut self, event: &Event, reply: &Reply) -> Result<(), AllocError>
        ensures ok { OnOk result (self.new ≡ self.old ++ answered event.now reply.now ∷ []) }
        ensures err { OnErr result (self.new ≡ self.old) }
    {
        self.entry.clear();
        put_event(self.alloc, &mut self.entry, event)?;
        put_reply(&mut self.entry, reply)?;
        self.pieces.push(&self.entry)
    }

    /// Puts the event of this number of a list with its reply behind all others: its bytes are copied as they stand. `Err` only if
    /// memory is refused; nothing has changed then.
    pub fn push_kept(&mut self, events: &Events, i: usize, reply: &Reply) -> Result<(), AllocError>
        requires { i < length events.now }
        ensures ok { (d : _) → OnOk result (self.new ≡ self.old ++ answered (slice_index_or events.now i d) reply.now ∷ []) }
        ensures err { OnErr result (self.new ≡ self.old) }
    {
        self.entry.clear();
        self.entry.extend_from_slice(events.bytes(i))?;
        put_reply(&mut self.entry, reply)?;
        self.pieces.push(&self.entry)
    }

    /// Puts the entries of another list behind all others. `Err` only if memory is refused; nothing has changed then.
    pub fn append(&mut self, others: &Entries) -> Result<(), AllocError>
        ensures ok { OnOk result (self.new ≡ self.old ++ others.now) }
        ensures err { OnErr result (self.new ≡ self.old) }
    {
        self.pieces.append(&others.pieces)
    }

    /// Reads the entry of this number, counted from 0, into a place. What a reply lists takes memory.
    pub fn read(&self, i: usize, into: &mut Entry) -> Result<(), AllocError>
        requires { i < length self.now }
        ensures { (d : _) → OnOk result (into.new ≡ slice_index_or self.now i d) }
    {
        let mut c = Cursor::new(self.pieces.get(i));
        match entry_at(self.alloc, &mut c, into)? {
            Some(()) => Ok(()),
            None => unreachable!(),
        }
    }

    /// The entry of this number, counted from 0. What a reply lists takes memory.
    pub fn get(&self, i: usize) -> Result<Entry, AllocError>
        requires { i < length self.now }
        ensures { (d : _) → IfOk result (λ entry. entry ≡ slice_index_or self.now i d) }
    {
        let mut entry = any_entry();
        self.read(i, &mut entry)?;
        Ok(entry)
    }

    /// The entries once more, each with room for the longest names.
    pub fn to_vec(&self) -> Result<Vec<Entry>, AllocError>
        ensures { IfOk result (λ list. list.items ≡ self.now) }
    {
        let mut list = Vec::new(self.alloc);
        for i in 0..self.len() {
            let entry = self.get(i)?;
            list.push(entry)?;
        }
        Ok(list)
    }

    /// Whether the entry of this number is that of another list.
    pub fn is_same(&self, i: usize, other: &Entries, at: usize) -> bool
        requires here { i < length self.now }
        requires there { at < length other.now }
        ensures { (d : _) → IsTrue result ↔ (slice_index_or self.now i d ≡ slice_index_or other.now at d) }
    {
        self.pieces.get(i) == other.pieces.get(at)
    }
}

/// Any entry: what stands in a place before one is read into it.
pub fn any_entry() -> Entry {
    Entry {
        event: any_event(),
        reply: None,
    }
}

#[tactic(auto, using(crate::proofs::Listed::answered_read), unfolding(crate::specs::Lists::entry_at))]
fn entry_at(alloc: Global, c: &mut Cursor, into: &mut Entry) -> Result<Option<()>, AllocError>
    ensures { IfOk result (λ found. Gives (λ _. (into.new, c.new.rest.now)) found (entry_at c.old.rest.now)) }
{
    if event_at(c, &mut into.event).is_none() {
        return Ok(None);
    }
    reply_at(alloc, c, &mut into.reply)
}

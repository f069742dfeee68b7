//! What is noted of queues below which nothing may be placed.

ghost use Rattle.std.specs.Prelude.{◌≡◌, ℕ, IfOk, None, ◌&&◌, nat_eq, if◌then◌else◌};
ghost use Rattle.ynl_laws.specs.Ways.{has_number};
ghost use Rattle.ynl_search.specs.notes.Notes.{forgotten, forgotten_on, has_in, more_where, no_notes, noted, noted_at, noted_in, nothing_noted, with_more, Changes, IsEmpty};

use crate::notes::note_table::NoteTable;
use crate::notes::noted::Noted;
use crate::notes::row::{Row, change, note, noted_in, unknown};
use std::alloc::{AllocError, Global};
use std::marker::Model;
use ynl_resource::Resource;

/// What is noted of queues on partitions, and of their guests: what each ask for DEFAULT below a queue is for at least. What
/// is not noted costs a search, and no answer.
pub struct Shut {
    own: NoteTable,
    guests: Row,
}

// By hand, so that crates above call it: one that is derived is proved anew in each of them.
impl Drop for Shut {
    fn drop(self) {
        let Shut { own: _, guests: _ } = self;
    }
}

impl Model for Shut {
    ghost use Rattle.ynl_search.specs.notes.Notes.{Notes, row_of};

    ghost Value = { Notes };

    ghost view = { λ a. record { own = a.own; guests = row_of a.guests } };
}

impl Shut {
    /// A place for each of so many queues, on each of so many partitions and for guests, where nothing is noted. It fails
    /// if memory is refused.
    pub fn new(alloc: Global, partitions: usize, queues: usize) -> Result<Shut, AllocError>
        ensures { IfOk result (IsEmpty partitions queues) }
    {
        let own = NoteTable::new(alloc, partitions, queues)?;
        let guests = unknown(alloc, queues)?;
        Ok(Shut { own, guests })
    }

    /// No places at all: nothing can be noted. It takes no memory.
    pub fn none(alloc: Global) -> Shut
        ensures { result ≡ no_notes }
    {
        Shut {
            own: NoteTable::none(alloc),
            guests: Row {
                known: false,
                notes: Vec::new(alloc),
            },
        }
    }

    /// What is noted of a queue on a partition.
    pub fn noted(&self, p: u8, queue: usize) -> Noted
        ensures { result ≡ noted_at self.now.own p queue }
    {
        self.own.noted(p, queue)
    }

    /// Something is noted of a queue on a partition, if there is a place for it. It takes no memory.
    pub fn note(&mut self, p: u8, queue: usize, more: Noted)
        ensures own { Changes (noted self.old.own p queue more) self.old.own self.new.own }
        ensures guests { self.new.guests ≡ self.old.guests }
    {
        self.own.note(p, queue, more);
    }

    /// Requests may have come below some queues on a partition that are for so much at least.
    pub fn change(&mut self, p: u8, queues: &[usize], low: &Resource)
        ensures own { Changes (more_where (λ r t. nat_eq r p && has_number queues.now t) low.now)
            self.old.own self.new.own }
        ensures guests { self.new.guests ≡ self.old.guests }
    {
        self.own.change(p, queues, low);
    }

    /// What is noted of the queues on a partition is forgotten; what is noted of guests is kept.
    pub fn forget(&mut self, p: u8)
        ensures own { Changes (forgotten_on p) self.old.own self.new.own }
        ensures guests { self.new.guests ≡ self.old.guests }
    {
        self.own.forget(p);
    }

    /// All is forgotten.
    pub fn forget_all(&mut self)
        ensures own { Changes forgotten self.old.own self.new.own }
        ensures guests { (q : ℕ) → noted_in self.new.guests q ≡ nothing_noted }
    {
        self.own.forget_all();
        self.guests.known = false;
    }

    /// What each ask for DEFAULT below a queue is for at least, as it is noted.
    pub fn least_guest(&self, queue: usize) -> Resource
        ensures { result ≡ (noted_in self.now.guests queue).least }
    {
        noted_in(&self.guests, queue).least
    }

    /// It is noted what each ask for DEFAULT below a queue is for at least, if there is a place for it. It takes no memory.
    pub fn note_guest(&mut self, queue: usize, least: Resource)
        ensures own { self.new.own ≡ self.old.own }
        ensures guests { (q : ℕ) → noted_in self.new.guests q
            ≡ (if has_in self.old.guests q && nat_eq q queue then record { room = None; least = least }
            else noted_in self.old.guests q) }
    {
        note(&mut self.guests, queue, Noted { room: None, least });
    }

    /// Asks for DEFAULT may have come below some queues that are for so much at least.
    pub fn change_guests(&mut self, queues: &[usize], low: &Resource)
        ensures own { self.new.own ≡ self.old.own }
        ensures guests { (q : ℕ) → noted_in self.new.guests q
            ≡ (if has_number queues.now q then with_more low.now (noted_in self.old.guests q)
            else noted_in self.old.guests q) }
    {
        change(&mut self.guests, queues, low);
    }
}

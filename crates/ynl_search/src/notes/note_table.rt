//! What is noted of queues, by partition.

ghost use Rattle.std.specs.Prelude.{◌≡◌, [], IfOk, ◌&&◌, nat_eq};
ghost use Rattle.ynl_laws.specs.Ways.{has_number};
ghost use Rattle.ynl_search.specs.notes.Notes.{forgotten, forgotten_on, more_where, noted, noted_at, AreEmpty, Changes};

use crate::notes::noted::Noted;
use crate::notes::row::{Row, change, note, noted_in, unknown};
use std::alloc::{AllocError, Global};
use std::marker::Model;
use ynl_resource::Resource;

/// What is noted of queues on partitions.
pub(crate) struct NoteTable {
    rows: Vec<Row>,
}

// By hand, so that crates above call it: one that is derived is proved anew in each of them.
impl Drop for NoteTable {
    fn drop(self) {
        let NoteTable { rows: _ } = self;
    }
}

impl Model for NoteTable {
    ghost use Rattle.ynl_search.specs.notes.Notes.{Table, row_of};
    ghost use Rattle.std.specs.Prelude.{map};

    ghost Value = { Table };

    ghost view = { λ a. map row_of a.rows.items };
}

impl NoteTable {
    /// A place for each of so many queues on each of so many partitions, where nothing is noted. It fails if memory is
    /// refused.
    pub(crate) fn new(
        alloc: Global,
        partitions: usize,
        queues: usize,
    ) -> Result<NoteTable, AllocError>
        ensures { IfOk result (AreEmpty partitions queues) }
    {
        let mut rows = Vec::with_capacity(alloc, partitions)?;
        for _partition in 0..partitions {
            rows.push(unknown(alloc, queues)?)?;
        }
        Ok(NoteTable { rows })
    }

    /// No places at all: nothing can be noted. It takes no memory.
    pub(crate) fn none(alloc: Global) -> NoteTable
        ensures { result ≡ [] }
    {
        NoteTable {
            rows: Vec::new(alloc),
        }
    }

    /// What is noted of a queue on a partition.
    pub(crate) fn noted(&self, p: u8, queue: usize) -> Noted
        ensures { result ≡ noted_at self.now p queue }
    {
        match self.rows.get(p as usize) {
            Some(row) => noted_in(row, queue),
            None => Noted::nothing(),
        }
    }

    /// Something is noted of a queue on a partition, if there is a place for it. It takes no memory.
    pub(crate) fn note(&mut self, p: u8, queue: usize, more: Noted)
        ensures { Changes (noted self.old p queue more) self.old self.new }
    {
        if p as usize >= self.rows.len() {
            return;
        }
        note(&mut self.rows[p as usize], queue, more);
    }

    /// Requests may have come below some queues on a partition that are for so much at least.
    pub(crate) fn change(&mut self, p: u8, queues: &[usize], low: &Resource)
        ensures { Changes (more_where (λ r t. nat_eq r p && has_number queues.now t) low.now)
            self.old self.new }
    {
        if p as usize >= self.rows.len() {
            return;
        }
        change(&mut self.rows[p as usize], queues, low);
    }

    /// What is noted on a partition is forgotten.
    pub(crate) fn forget(&mut self, p: u8)
        ensures { Changes (forgotten_on p) self.old self.new }
    {
        if p as usize >= self.rows.len() {
            return;
        }
        self.rows[p as usize].known = false;
    }

    /// All is forgotten.
    pub(crate) fn forget_all(&mut self)
        ensures { Changes forgotten self.old self.new }
    {
        for p in 0..self.rows.len() {
            self.rows[p].known = false;
        }
    }
}

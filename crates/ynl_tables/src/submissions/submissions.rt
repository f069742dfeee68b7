//! The applications that were submitted to a tenant.

ghost use Rattle.std.specs.Prelude.{◌≡◌, ◌<◌, ◌≤◌, ◌+◌, ◌++◌, ◌∷◌, [], length, slice_get, option_map, Some, None, IsOk, OnOk, IfSome};
ghost use Rattle.ynl_tables.specs.submissions.Submissions.{HasDistinctNames, turn_of, with_finished};

use crate::submissions::key::Key;
use indexmap::IndexMap;
use std::alloc::{AllocError, Global};
use std::marker::Model;
use std::ops::Index;
use ynl_resource::{HashSeed, Name};

/// An application that was submitted.
#[derive(Clone, Copy)]
pub struct Submission {
    /// The number of its leaf.
    pub leaf: u32,
    /// The number of its row, while it is live.
    pub app: Option<u32>,
}

/// The applications that were submitted to a tenant. A name is used for good. An application's turn is how many were
/// submitted before it. It is found by its name or its turn in constant time. A contract sees the submissions under
/// their names, in the order of submission, and how many more take no memory.
#[derive(Drop)]
pub struct Submissions {
    by_name: IndexMap<Key, Submission, HashSeed>,
}

impl Model for Submissions {
    ghost use Rattle.ynl_tables.specs.submissions.Submissions.{Listing};

    ghost Value = { Listing };

    ghost use Rattle.ynl_tables.specs.submissions.Fields.{listing_of, HasTurns};

    ghost view = { listing_of };

    ghost invariant = { HasTurns };
}

impl Submissions {
    /// No submissions, whose names are hashed with this seed. It takes no memory.
    pub fn new(alloc: Global, seed: HashSeed) -> Submissions
        ensures { result.entries ≡ [] }
    {
        Submissions {
            by_name: IndexMap::with_hasher(alloc, seed),
        }
    }

    /// How many applications were submitted.
    pub fn len(&self) -> usize
        ensures value { result ≡ length self.now.entries }
        ensures distinct { HasDistinctNames self.now.entries }
    {
        self.by_name.len()
    }

    /// The turn of the next submission.
    pub fn next_turn(&self) -> u32
        ensures { result ≡ length self.now.entries }
    {
        let count = self.by_name.len();
        count as u32
    }

    /// Reserves room for one more submission. It fails if memory is refused, and after 2^32 - 1 submissions.
    pub fn reserve_one(&mut self) -> Result<(), AllocError>
        ensures listing { self.new ≡ record self.old { room = self.new.room } }
        ensures ok { OnOk result (0 < self.new.room) }
        ensures had_room { 0 < self.old.room → IsOk result }
        ensures room { self.old.room ≤ self.new.room }
    {
        if self.by_name.len() >= u32::MAX as usize {
            return Err(AllocError);
        }
        self.by_name.reserve(1)
    }

    /// The turn of the application of a name, if it was submitted.
    pub fn find(&self, name: &Name) -> Option<u32>
        ensures value { result ≡ turn_of name.now self.now.entries }
        ensures own { IfSome result (λ turn.
            option_map (λ e. e.0) (slice_get self.now.entries turn) ≡ Some name.now) }
    {
        let key = Key { name: *name };
        let turn = self.by_name.get_index_of(&key)?;
        Some(turn as u32)
    }

    /// The name of the application of a turn.
    pub fn name(&self, turn: u32) -> &Name
        requires { turn < length self.now.entries }
        ensures { option_map (λ e. e.0) (slice_get self.now.entries turn) ≡ Some result.now }
    {
        match self.by_name.get_index(turn as usize) {
            Some((key, _)) => &key.name,
            None => unreachable!(),
        }
    }

    /// An application of a new name is submitted to a leaf, and live under the number of its row. It returns its turn.
    pub fn submit(&mut self, name: &Name, leaf: u32, app: u32) -> u32
        requires room { 0 < self.old.room }
        requires unused { turn_of name.now self.old.entries ≡ None }
        ensures entries { self.new.entries ≡ self.old.entries
            ++ (name.now, record { leaf = leaf; app = Some app }) ∷ [] }
        ensures turn { result ≡ length self.old.entries }
        ensures room { self.old.room ≤ self.new.room + 1 }
    {
        let turn = self.by_name.len() as u32;
        let submission = Submission {
            leaf,
            app: Some(app),
        };
        match self.by_name.insert(Key { name: *name }, submission) {
            Ok(_) => turn,
            Err(_) => unreachable!(),
        }
    }

    /// The application of a turn is live no more. Its name stays. It takes no memory.
    pub fn finish(&mut self, turn: u32)
        requires { turn < length self.old.entries }
        ensures { self.new ≡ record self.old { entries = with_finished turn self.old.entries } }
    {
        let submission = &mut self.by_name[turn as usize];
        submission.app = None;
    }
}

impl Index<u32> for Submissions {
    type Output = Submission;

    ghost can_index = { λ s turn. turn < length s.entries };

    ghost index_gives = { λ s turn submission.
        option_map (λ e. e.1) (slice_get s.entries turn) ≡ Some submission };

    fn index(&self, turn: u32) -> &Submission {
        &self.by_name[turn as usize]
    }
}

//! Byte strings one behind another.

ghost use Rattle.std.specs.Prelude.{◌≡◌, ◌+◌, ◌^◌, ◌<◌, ◌≤◌, ◌++◌, ◌∷◌, [], length, take, slice_index_or, OnOk, OnErr};
ghost use Rattle.ynl_packed.specs.Pieces.{start_of};

use std::alloc::{AllocError, Global};
use std::marker::Model;

/// A list of byte strings in one piece of memory. A contract sees the list.
pub(crate) struct Pieces {
    bytes: Vec<u8>,
    ends: Vec<usize>,
}

// By hand, so that crates above call it: one that is derived is proved anew in each of them, with all that it holds.
impl Drop for Pieces {
    fn drop(self) {
        let Pieces { bytes: _, ends: _ } = self;
    }
}

impl Model for Pieces {
    ghost use Rattle.std.specs.Prelude.{List, ℕ};

    ghost Value = { List (List ℕ) };

    ghost use Rattle.ynl_packed.specs.PiecesFields.{pieces_of, HasEnds};

    ghost view = { pieces_of };

    ghost invariant = { HasEnds };
}

impl Pieces {
    pub(crate) fn new(alloc: Global) -> Pieces
        ensures { result ≡ [] }
    {
        Pieces {
            bytes: Vec::new(alloc),
            ends: Vec::new(alloc),
        }
    }

    pub(crate) fn len(&self) -> usize
        ensures value { result ≡ length self.now }
        ensures counted { result + 1 < 2 ^ 64 }
    {
        self.ends.len()
    }

    /// Puts a piece behind all others. Where memory is refused nothing has changed.
    pub(crate) fn push(&mut self, piece: &[u8]) -> Result<(), AllocError>
        ensures ok { OnOk result (self.new ≡ self.old ++ piece.now ∷ []) }
        ensures err { OnErr result (self.new ≡ self.old) }
    {
        self.ends.reserve(1)?;
        self.bytes.extend_from_slice(piece)?;
        self.ends.push_reserved(self.bytes.len());
        Ok(())
    }

    /// Puts the pieces of another list behind all others. Where memory is refused nothing has changed.
    pub(crate) fn append(&mut self, others: &Pieces) -> Result<(), AllocError>
        ensures ok { OnOk result (self.new ≡ self.old ++ others.now) }
        ensures err { OnErr result (self.new ≡ self.old) }
    {
        let len = self.len();
        for i in 0..others.len() {
            if let Err(refused) = self.push(others.get(i)) {
                self.truncate(len);
                return Err(refused);
            }
        }
        Ok(())
    }

    /// The piece of this number.
    #[tactic(auto, using(crate::proofs::Cut::len_pieces, crate::proofs::Cut::place_inside, crate::proofs::Cut::piece_at))]
    pub(crate) fn get(&self, i: usize) -> &[u8]
        requires { i < length self.now }
        ensures { (d : _) → result.now ≡ slice_index_or self.now i d }
    {
        let start = start_of(&self.ends, i);
        &self.bytes[start..self.ends[i]]
    }

    /// Keeps so many pieces of the front.
    #[tactic(auto, using(crate::proofs::Cut::len_pieces, crate::proofs::Cut::ends_take, crate::proofs::Cut::start_inside, crate::proofs::Cut::pieces_take))]
    pub(crate) fn truncate(&mut self, len: usize)
        requires { len ≤ length self.old }
        ensures { self.new ≡ take len self.old }
    {
        let start = start_of(&self.ends, len);
        self.bytes.truncate(start);
        self.ends.truncate(len);
    }
}

/// Where the piece of this number begins.
fn start_of(ends: &[usize], i: usize) -> usize
    requires { i ≤ length ends.now }
    ensures { result ≡ start_of 0 ends.now i }
{
    match i {
        0 => 0,
        _ => ends[i - 1],
    }
}

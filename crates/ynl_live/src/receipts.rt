//! Receipts.

ghost use Rattle.std.specs.Prelude.{◌≡◌, ◌<◌, ◌++◌, ◌∷◌, ◌↔◌, [], length, slice_index_or, IfOk, OnOk, OnErr, IsTrue};
ghost use Rattle.ynl_live.specs.Receipts.{entry_of, receipt};

use std::alloc::{AllocError, Global};
use std::marker::Model;
use ynl_model::{Event, Reply};
use ynl_packed::Entries;

/// What a call gives: the place of the event in the journal, counted from 0, and the reply.
#[derive(Drop)]
pub struct Receipt {
    pub place: u64,
    pub event: Event,
    pub reply: Reply,
}

/// The receipts of a seat's calls, in their order, each kept as its place and its bytes. A contract sees the list.
pub struct Receipts {
    places: Vec<u64>,
    entries: Entries,
}

// By hand, so that crates above call it: one that is derived is proved anew in each of them, with all that it holds.
impl Drop for Receipts {
    fn drop(self) {
        let Receipts {
            places: _,
            entries: _,
        } = self;
    }
}

impl Model for Receipts {
    ghost use Rattle.std.specs.Prelude.{List};
    ghost use Rattle.ynl_live.specs.declared.receipts.Receipt.{Receipt};

    ghost Value = { List Receipt };

    ghost use Rattle.ynl_live.specs.ReceiptsFields.{receipts_of, AreKept};

    ghost view = { receipts_of };

    ghost invariant = { AreKept };
}

impl Receipts {
    /// No receipt.
    pub fn new(alloc: Global) -> Receipts
        ensures { result ≡ [] }
    {
        Receipts {
            places: Vec::new(alloc),
            entries: Entries::new(alloc),
        }
    }

    /// These receipts.
    pub fn of(alloc: Global, receipts: &[Receipt]) -> Result<Receipts, AllocError>
        ensures { IfOk result (λ kept. kept ≡ receipts.now) }
    {
        let mut kept = Receipts::new(alloc);
        for receipt in receipts {
            kept.push(receipt)?;
        }
        Ok(kept)
    }

    /// How many there are.
    pub fn len(&self) -> usize
        ensures { result ≡ length self.now }
    {
        self.places.len()
    }

    /// Puts a receipt behind all others. `Err` only if memory is refused; nothing has changed then.
    pub fn push(&mut self, receipt: &Receipt) -> Result<(), AllocError>
        ensures ok { OnOk result (self.new ≡ self.old ++ receipt.now ∷ []) }
        ensures err { OnErr result (self.new ≡ self.old) }
    {
        self.add(receipt.place, &receipt.event, &receipt.reply)
    }

    /// The same as `push`, of a receipt whose parts are lent: an event is large, and is not moved into one first.
    pub fn add(&mut self, place: u64, event: &Event, reply: &Reply) -> Result<(), AllocError>
        ensures ok { OnOk result (self.new ≡ self.old ++ receipt place event.now reply.now ∷ []) }
        ensures err { OnErr result (self.new ≡ self.old) }
    {
        self.places.reserve(1)?;
        self.entries.push(event, reply)?;
        self.places.push_reserved(place);
        Ok(())
    }

    /// The place of the receipt of this number, counted from 0.
    pub(crate) fn place(&self, i: usize) -> u64
        requires { i < length self.now }
        ensures { (d : _) → result ≡ (slice_index_or self.now i d).place }
    {
        self.places[i]
    }

    /// Whether the receipt of this number tells of the entry of that number.
    pub(crate) fn tells_of(&self, i: usize, entries: &Entries, at: usize) -> bool
        requires here { i < length self.now }
        requires there { at < length entries.now }
        ensures { (d : _) (e : _) → IsTrue result ↔ (slice_index_or entries.now at e ≡ entry_of (slice_index_or self.now i d)) }
    {
        entries.is_same(at, &self.entries, i)
    }
}

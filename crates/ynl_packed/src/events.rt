//! Lists of events.

ghost use Rattle.std.specs.Prelude.{◌≡◌, ◌+◌, ◌^◌, ◌<◌, ◌≤◌, ◌++◌, ◌∷◌, [], length, take, slice_index_or, IfOk, OnOk, OnErr};
ghost use Rattle.ynl_packed.specs.Fits.{FitsEvent};
ghost use Rattle.ynl_packed.specs.Spelling.{event_bytes};

use crate::cursor::Cursor;
use crate::event_reading::event_at;
use crate::event_writing::put_event;
use crate::pieces::Pieces;
use std::alloc::{AllocError, Global};
use std::marker::Model;
use ynl_model::Event;

/// A list of events, each kept as its bytes. A contract sees the list.
pub struct Events {
    alloc: Global,
    pieces: Pieces,
    // The bytes of the event that is added.
    event: Vec<u8>,
}

// By hand, so that crates above call it: one that is derived is proved anew in each of them, with all that it holds.
impl Drop for Events {
    fn drop(self) {
        let Events {
            alloc: _,
            pieces: _,
            event: _,
        } = self;
    }
}

impl Model for Events {
    ghost use Rattle.std.specs.Prelude.{List};
    ghost use Rattle.ynl_model.specs.declared.events.Event.{Event};

    ghost Value = { List Event };

    ghost use Rattle.ynl_packed.specs.EventsFields.{events_of, HasEvents};

    ghost view = { events_of };

    ghost invariant = { HasEvents };
}

impl Events {
    /// No event.
    pub fn new(alloc: Global) -> Events
        ensures { result ≡ [] }
    {
        Events {
            alloc,
            pieces: Pieces::new(alloc),
            event: Vec::new(alloc),
        }
    }

    /// These events.
    pub fn of(alloc: Global, events: &[Event]) -> Result<Events, AllocError>
        ensures { IfOk result (λ kept. kept ≡ events.now) }
    {
        let mut kept = Events::new(alloc);
        for event in events {
            kept.push(event)?;
        }
        Ok(kept)
    }

    /// How many there are.
    pub fn len(&self) -> usize
        ensures value { result ≡ length self.now }
        ensures counted { result + 1 < 2 ^ 64 }
    {
        self.pieces.len()
    }

    /// Puts an event behind all others. `Err` only if memory is refused; nothing has changed then.
    pub fn push(&mut self, event: &Event) -> Result<(), AllocError>
        ensures ok { OnOk result (self.new ≡ self.old ++ event.now ∷ []) }
        ensures err { OnErr result (self.new ≡ self.old) }
    {
        self.event.clear();
        put_event(self.alloc, &mut self.event, event)?;
        self.pieces.push(&self.event)
    }

    /// Puts the events of another list behind all others. `Err` only if memory is refused; nothing has changed then.
    pub fn append(&mut self, others: &Events) -> Result<(), AllocError>
        ensures ok { OnOk result (self.new ≡ self.old ++ others.now) }
        ensures err { OnErr result (self.new ≡ self.old) }
    {
        self.pieces.append(&others.pieces)
    }

    /// The bytes of the event of this number.
    pub(crate) fn bytes(&self, i: usize) -> &[u8]
        requires { i < length self.now }
        ensures bytes { (d : _) → result.now ≡ event_bytes (slice_index_or self.now i d) }
        ensures fits { (d : _) → FitsEvent (slice_index_or self.now i d) }
    {
        self.pieces.get(i)
    }

    /// Reads the event of this number, counted from 0, into a place.
    pub fn read(&self, i: usize, into: &mut Event)
        requires { i < length self.now }
        ensures { (d : _) → into.new ≡ slice_index_or self.now i d }
    {
        let mut c = Cursor::new(self.bytes(i));
        match event_at(&mut c, into) {
            Some(()) => {}
            None => unreachable!(),
        }
    }

    /// Keeps so many events of the front.
    pub fn truncate(&mut self, len: usize)
        requires { len ≤ length self.old }
        ensures { self.new ≡ take len self.old }
    {
        self.pieces.truncate(len);
    }
}

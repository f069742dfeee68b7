//! What a caller holds: a pointer to a desk, or null.

ghost use Rattle.std.specs.Prelude.{◌≡◌, Option, Some, None, IfOk, OnErr};
ghost use Rattle.std.specs.Option.{MatchOption};
ghost use Rattle.ynl_c.specs.declared.desk.desk.Desk.{Desk};
ghost use Rattle.ynl_c.specs.Behind.{behind};

use crate::desk::Desk;
use crate::loose::Loose;
use std::alloc::{AllocError, Global};
use std::marker::{Model, Send};
use std::mem::replace;
use std::ptr::null_mut;

/// A desk, or none where it is closed. C cannot take a struct that holds a `Box`, so it holds the box's pointer; a
/// `Global` takes no bytes.
#[repr(C)]
pub struct Handle {
    at: *mut u8,
    alloc: Global,
    pub ghost value: { Option Desk },
}

impl Model for Handle {
    ghost use Rattle.ynl_c.specs.Held.{held};
    ghost use Rattle.ynl_c.specs.declared.desk.desk.Desk.{Desk};
    ghost use Rattle.ynl_c.specs.contracts.desk.desk.Desk.{the_row};
    ghost use Rattle.std.specs.Prelude.{Option};
    ghost use Rattle.std.specs.contracts.impls.GlobalAllocator.TheImpl.{ghosts};

    ghost also_owns = { λ h. held (ghosts.dealloc_token h.alloc) the_row h.at h.value };
}

impl Handle {
    /// One that holds this desk.
    fn of(desk: Loose<Desk, Global>) -> Handle
        ensures { result.value ≡ Some desk.value }
    {
        let Loose { at, alloc } = desk;
        Handle {
            at: at as *mut u8,
            alloc,
        }
    }

    /// One that is closed.
    pub fn closed(alloc: Global) -> Handle
        ensures { result.value ≡ None }
    {
        Handle {
            at: null_mut(),
            alloc,
        }
    }

    /// What it holds.
    fn into_loose(self) -> Option<Loose<Desk, Global>>
        ensures { MatchOption result (self.value ≡ None) (λ desk. self.value ≡ Some desk.value) }
    {
        let Handle { at, alloc } = self;
        if at.is_null() {
            None
        } else {
            Some(Loose {
                at: at as *mut Desk,
                alloc,
            })
        }
    }

    /// Takes out what it holds; it is closed then.
    pub fn take(&mut self, alloc: Global) -> Option<Box<Desk>>
        ensures desk { MatchOption result (self.old.value ≡ None) (λ desk. self.old.value ≡ Some desk.value) }
        ensures closed { self.new.value ≡ None }
    {
        match replace(self, Handle::closed(alloc)).into_loose() {
            Some(desk) => Some(desk.into_box()),
            None => None,
        }
    }

    /// The same, or a desk without a cluster where it is closed.
    pub fn take_or_new(&mut self, alloc: Global) -> Result<Box<Desk>, AllocError>
        ensures desk { IfOk result (λ desk. behind (Some desk.value) ≡ behind self.old.value) }
        ensures closed { self.new.value ≡ None }
        ensures err { OnErr result (self.old.value ≡ None) }
    {
        match self.take(alloc) {
            Some(desk) => Ok(desk),
            None => match Box::new(alloc, Desk::new(alloc)) {
                Ok(desk) => Ok(desk),
                Err(_) => Err(AllocError),
            },
        }
    }

    /// Holds this desk, and lets go what it held before.
    pub fn put(&mut self, desk: Box<Desk>)
        ensures { self.new.value ≡ Some desk.value }
    {
        *self = Handle::of(Loose::of(desk));
    }
}

impl Drop for Handle {
    fn drop(self) {
        if let Some(desk) = self.into_loose() {
            drop(desk.into_box());
        }
    }
}

unsafe impl Send for Handle {}

fn send<T: Send + Drop>(value: T) -> T {
    value
}

/// Proved only if a handle may go to another thread; nothing else asks for that.
pub fn send_handle(handle: Handle) -> Handle {
    send(handle)
}

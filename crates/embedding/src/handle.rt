//! What a host has of a store, a version or a program.
ghost use Rattle.std.specs.Prelude.{◌≡◌, ◌≢◌, Some, None, MatchOption, IfOk};
ghost use Rattle.std.specs.declared.option.Option.{Option};
ghost use Rattle.embedding.specs.declared.held.Held.{Held};
ghost use Rattle.embedding.specs.declared.statuses.TheConstants.{DONE, NO_MEMORY};
ghost use Rattle.embedding.specs.Handle.{handle_owns, held_coded};

use crate::held::Held;
use crate::raw_box::RawBox;
use crate::statuses::{DONE, NO_MEMORY};
use std::alloc::{AllocError, Global};
use std::marker::Model;
use std::mem;

/// What a host has of something that it holds: a pointer, which is null where nothing is held. Contracts see what is held.
#[repr(C)]
pub struct Handle {
    at: *mut u8,
    alloc: Global,
    pub ghost held: { Option Held } by { held_coded },
}

impl Model for Handle {
    ghost also_owns = { λ h. handle_owns h.alloc h.at h.held };
}

impl Handle {
    /// The handle that holds nothing.
    pub fn empty(alloc: Global) -> Handle
        ensures { result.held ≡ None }
    {
        Handle {
            at: std::ptr::null_mut(),
            alloc,
        }
    }

    // The handle of a box's parts.
    fn of_raw(raw: RawBox<Held, Global>) -> Handle
        ensures { result.held ≡ Some raw.value }
    {
        let RawBox { at, alloc } = raw;
        Handle {
            at: at as *mut u8,
            alloc,
        }
    }

    // The parts of the box of what it holds.
    fn into_raw(self) -> Option<RawBox<Held, Global>>
        ensures { MatchOption result (self.held ≡ None) (λ raw. self.held ≡ Some raw.value) }
    {
        let Handle { at, alloc } = self;
        if at.is_null() {
            None
        } else {
            Some(RawBox {
                at: at as *mut Held,
                alloc,
            })
        }
    }

    /// A handle of this.
    pub fn of(alloc: Global, held: Held) -> Result<Handle, AllocError>
        ensures { IfOk result (λ handle. handle.held ≡ Some held) }
    {
        let whole = Box::new(alloc, held)?;
        Ok(Handle::of_raw(RawBox::of(whole)))
    }

    /// Takes out what it holds, and leaves it empty.
    pub fn take(&mut self, alloc: Global) -> Option<Box<Held>>
        ensures taken { MatchOption result (self.old.held ≡ None) (λ held. self.old.held ≡ Some held.value) }
        ensures empty { self.new.held ≡ None }
    {
        let handle = mem::replace(self, Handle::empty(alloc));
        match handle.into_raw() {
            None => None,
            Some(raw) => Some(raw.into_box()),
        }
    }

    /// Puts this in. What it held is dropped.
    pub fn put(&mut self, held: Box<Held>)
        ensures { self.new.held ≡ Some held.value }
    {
        *self = Handle::of_raw(RawBox::of(held));
    }
}

impl Drop for Handle {
    fn drop(self) {
        if let Some(raw) = self.into_raw() {
            drop(raw.into_box());
        }
    }
}

// Whoever has a handle owns the box, and all kinds of what it holds may go to another thread.
unsafe impl Send for Handle {}

/// Writes a new handle of this where the host wants it. What was held there is dropped.
pub fn hand_out(alloc: Global, held: Held, out: &mut Handle) -> u32
    ensures made { result ≡ DONE → out.new.held ≡ Some held }
    ensures left { result ≢ DONE → (result ≡ NO_MEMORY) × (out.new.held ≡ out.old.held) }
{
    match Handle::of(alloc, held) {
        Ok(handle) => {
            *out = handle;
            DONE
        }
        Err(_) => NO_MEMORY,
    }
}

//! Copies of what is known. Registers and frame 0 are copied as plain memory, and each live frame of a called function
//! has a box of its own.
ghost use Rattle.std.specs.Prelude.{◌≡◌, IfOk, map};
ghost use Rattle.abstract_state.specs.Called.{frame_called, kept_by, places_of};

use crate::calls::are_none;
use crate::state::{AbstractState, Called, Callees, MOST_CALLERS, NO_PLACES, Places};
use std::alloc::{AllocError, Global};

/// A copy of a called function's frame.
fn copy_frame(
    alloc: Global,
    called: &Option<Box<Called>>,
) -> Result<Option<Box<Called>>, AllocError>
    ensures frame { IfOk result (λ copy. frame_called copy ≡ frame_called called.now) }
    ensures kept { IfOk result (λ copy. kept_by copy ≡ kept_by called.now) }
{
    match called {
        None => Ok(None),
        Some(called) => Ok(Some(Box::new(alloc, **called)?)),
    }
}

/// A copy of the frames of called functions.
fn copy_places(alloc: Global, places: &Places) -> Result<Box<Callees>, AllocError>
    ensures frames { IfOk result (λ copy. map frame_called copy.value.places ≡ map frame_called places.now) }
    ensures kept { IfOk result (λ copy. map kept_by copy.value.places ≡ map kept_by places.now) }
{
    let mut copy: Places = NO_PLACES;
    for i in 0..MOST_CALLERS {
        copy[i] = copy_frame(alloc, &places[i])?;
    }
    let callees = Callees {
        places: copy,
        spare: None,
    };
    Ok(Box::new(alloc, callees)?)
}

/// The same, where any function is called.
fn copy_called(
    alloc: Global,
    called: &Option<Box<Callees>>,
) -> Result<Option<Box<Callees>>, AllocError>
    ensures frames { IfOk result (λ copy. map frame_called (places_of copy) ≡ map frame_called (places_of called.now)) }
    ensures kept { IfOk result (λ copy. map kept_by (places_of copy) ≡ map kept_by (places_of called.now)) }
{
    match called {
        None => Ok(None),
        Some(callees) if are_none(&callees.places) => Ok(None),
        Some(callees) => Ok(Some(copy_places(alloc, &callees.places)?)),
    }
}

impl AbstractState {
    /// A copy.
    #[inline(never)]
    pub fn copy(&self, alloc: Global) -> Result<AbstractState, AllocError>
        ensures { IfOk result (λ copy. copy ≡ self.now) }
    {
        Ok(AbstractState {
            own: Box::new(alloc, *self.own)?,
            called: copy_called(alloc, &self.called)?,
        })
    }
}

//! What is known where a function of the program is called, after its exit, and after helpers.
ghost use Rattle.std.specs.Prelude.{◌≡◌, ℕ, ◌<◌, ◌+◌, ◌∷◌, [], pos, false, None, IfOk, IsTrue, OnOk, OnErr, map, replicate, slice_index_or, slice_set};
ghost use Rattle.abstract_values.specs.declared.value.AbstractValue.TheVariants.{Unset, Stack};
ghost use Rattle.abstract_state.specs.States.{new_frame, nothing_kept, most_callers, kept_of, without_pointer, without_pointers, callee_state, left_state, state_behind_helper};
ghost use Rattle.abstract_state.specs.Called.{frame_called, kept_by, places_of};
ghost use Rattle.abstract_state.specs.declared.state.TheConstants.{MOST_CALLERS};

use crate::state::{
    AbstractState, Called, Callees, FRAME_SLOTS, Frame, MOST_CALLERS, NO_PLACES, Places,
};
use abstract_values::AbstractValue;
use bpf_model::FRAME_BYTES;
use std::alloc::{AllocError, Global};

/// The frame of a function that has just begun, before anything is kept for its caller.
static BEGUN: Called = Called {
    frame: Frame {
        slots: [AbstractValue::Unset; FRAME_SLOTS],
        bytes_set: [false; FRAME_BYTES],
    },
    kept: [AbstractValue::Unset; 4],
};

/// A frame of which no byte is set, and what is kept for its caller. It lies in the memory of one that was dropped, if
/// there is any.
fn begin_frame(
    alloc: Global,
    spare: Option<Box<Called>>,
    kept: [AbstractValue; 4],
) -> Result<Box<Called>, AllocError>
    ensures frame { IfOk result (λ place. place.value.frame ≡ new_frame) }
    ensures kept { IfOk result (λ place. place.value.kept ≡ kept) }
{
    match spare {
        None => {
            let mut place = Box::new(alloc, BEGUN)?;
            place.kept = kept;
            Ok(place)
        }
        Some(spare) => {
            let mut place = spare;
            *place = BEGUN;
            place.kept = kept;
            Ok(place)
        }
    }
}

/// The frames of called functions, where there is a table of them or one is made.
fn open_callees(alloc: Global, called: Option<Box<Callees>>) -> Result<Box<Callees>, AllocError>
    ensures opened { IfOk result (λ callees. callees.value.places ≡ places_of called) }
    ensures none { OnErr result (called ≡ None) }
{
    match called {
        None => {
            let callees = Callees {
                places: NO_PLACES,
                spare: None,
            };
            Ok(Box::new(alloc, callees)?)
        }
        Some(callees) => Ok(callees),
    }
}

/// The registers where a function begins whose frame has a number: R1 to R5 stay, and R10 is the frame's top.
fn begin_registers(registers: &mut [AbstractValue; 11], frame: u8)
    ensures { registers.new ≡ Unset ∷ slice_index_or registers.old 1 Unset ∷ slice_index_or registers.old 2 Unset
        ∷ slice_index_or registers.old 3 Unset ∷ slice_index_or registers.old 4 Unset
        ∷ slice_index_or registers.old 5 Unset
        ∷ Unset ∷ Unset ∷ Unset ∷ Unset ∷ Stack frame (pos 0) ∷ [] }
{
    registers[0] = AbstractValue::Unset;
    registers[6] = AbstractValue::Unset;
    registers[7] = AbstractValue::Unset;
    registers[8] = AbstractValue::Unset;
    registers[9] = AbstractValue::Unset;
    registers[10] = AbstractValue::Stack { frame, offset: 0 };
}

/// What is known where a function begins that is called here, by a function that runs in a frame: R1 to R5 stay,
/// pointers into any live frame too, R6 to R9 are kept for the caller, and R10 is the top of a new frame. If there is no
/// memory, nothing is changed.
#[inline(never)]
pub fn enter_call(alloc: Global, state: &mut AbstractState, caller: u8) -> Result<(), AllocError>
    requires few { caller < MOST_CALLERS }
    ensures entered { OnOk result (state.new ≡ callee_state caller state.old) }
    ensures unchanged { OnErr result (state.new ≡ state.old) }
{
    let mut callees = open_callees(alloc, state.called.take())?;
    let spare = callees.spare.take();
    let known = state.own.registers;
    match begin_frame(alloc, spare, [known[6], known[7], known[8], known[9]]) {
        Err(error) => {
            state.called = Some(callees);
            Err(error)
        }
        Ok(place) => {
            callees.places[usize::from(caller)] = Some(place);
            state.called = Some(callees);
            begin_registers(&mut state.own.registers, caller + 1);
            Ok(())
        }
    }
}

/// Whether a value points into a frame. No other is changed where the frame is dropped.
fn points_into(value: AbstractValue, dropped: u8) -> bool
    ensures ended { IsTrue result → without_pointer dropped value ≡ Unset }
    ensures kept { result ≡ false → without_pointer dropped value ≡ value }
{
    match value {
        AbstractValue::Stack { frame, .. } => frame == dropped,
        _ => false,
    }
}

/// Ends the spills that point into a frame that is dropped.
fn forget_in_slots(slots: &mut [AbstractValue; FRAME_SLOTS], dropped: u8)
    ensures { slots.new ≡ map (without_pointer dropped) slots.old }
{
    for i in 0..FRAME_SLOTS {
        if points_into(slots[i], dropped) {
            slots[i] = AbstractValue::Unset;
        }
    }
}

/// The same of a frame that is live.
fn forget_in_frame(called: Option<Box<Called>>, dropped: u8) -> Option<Box<Called>>
    ensures frame { frame_called result ≡ without_pointers dropped (frame_called called) }
    ensures kept { kept_by result ≡ kept_by called }
{
    let Some(mut called) = called else {
        return None;
    };
    forget_in_slots(&mut called.frame.slots, dropped);
    Some(called)
}

/// The same of all frames of called functions.
fn forget_in_frames(called: &mut Places, dropped: u8)
    ensures frames { map frame_called called.new ≡ map (without_pointers dropped) (map frame_called called.old) }
    ensures kept { map kept_by called.new ≡ map kept_by called.old }
{
    for i in 0..MOST_CALLERS {
        let frame = called[i].take();
        called[i] = forget_in_frame(frame, dropped);
    }
}

/// R6 to R9 of a caller, as they were kept.
fn kept_for(called: &Option<Box<Callees>>, at: usize) -> [AbstractValue; 4]
    requires inside { at < MOST_CALLERS }
    ensures { (i : ℕ) → slice_index_or result i Unset ≡ kept_of (map kept_by (places_of called.now)) at i }
{
    let Some(callees) = called else {
        return [AbstractValue::Unset; 4];
    };
    match &callees.places[at] {
        None => [AbstractValue::Unset; 4],
        Some(called) => called.kept,
    }
}

/// Whether no function is called.
pub(crate) fn are_none(places: &Places) -> bool
    ensures { IsTrue result → places.now ≡ replicate most_callers None }
{
    for i in 0..MOST_CALLERS {
        if places[i].is_some() {
            return false;
        }
    }
    true
}

/// The frames of called functions, after one is dropped.
fn leave_place(called: Option<Box<Callees>>, at: usize) -> Option<Box<Callees>>
    requires inside { at < MOST_CALLERS }
    ensures frames { map frame_called (places_of result)
        ≡ map (without_pointers (at + 1)) (slice_set (map frame_called (places_of called)) at None) }
    ensures kept { map kept_by (places_of result) ≡ slice_set (map kept_by (places_of called)) at nothing_kept }
{
    let Some(mut callees) = called else {
        return None;
    };
    let dropped = callees.places[at].take();
    callees.spare = dropped;
    if are_none(&callees.places) {
        return Some(callees);
    }
    forget_in_frames(&mut callees.places, (at + 1) as u8);
    Some(callees)
}

/// The registers after the exit to a function whose frame has a number and for which R6 to R9 were kept: R0 stays, and
/// R10 is the frame's top.
fn end_registers(registers: &mut [AbstractValue; 11], kept: [AbstractValue; 4], frame: u8)
    ensures { registers.new ≡ slice_index_or registers.old 0 Unset ∷ Unset ∷ Unset ∷ Unset ∷ Unset ∷ Unset
        ∷ slice_index_or kept 0 Unset ∷ slice_index_or kept 1 Unset ∷ slice_index_or kept 2 Unset
        ∷ slice_index_or kept 3 Unset
        ∷ Stack frame (pos 0) ∷ [] }
{
    registers[1] = AbstractValue::Unset;
    registers[2] = AbstractValue::Unset;
    registers[3] = AbstractValue::Unset;
    registers[4] = AbstractValue::Unset;
    registers[5] = AbstractValue::Unset;
    registers[6] = kept[0];
    registers[7] = kept[1];
    registers[8] = kept[2];
    registers[9] = kept[3];
    registers[10] = AbstractValue::Stack { frame, offset: 0 };
}

/// What is known after the exit of a function that was called by one that runs in a frame: R0 is its answer, nothing
/// is known of R1 to R5, the caller has its R6 to R10, and no slot holds a pointer into the frame that is dropped.
#[inline(never)]
pub fn leave_call(state: &mut AbstractState, caller: u8)
    requires few { caller < MOST_CALLERS }
    ensures { state.new ≡ left_state caller state.old }
{
    let at = usize::from(caller);
    let kept = kept_for(&state.called, at);
    let called = state.called.take();
    state.called = leave_place(called, at);
    forget_in_slots(&mut state.own.frame.slots, caller + 1);
    end_registers(&mut state.own.registers, kept, caller);
}

/// What is known after the call of a helper: R0 is its answer, nothing is known of R1 to R5, and R6 to R10
/// and the frames are as they were.
pub fn return_from_helper(state: &mut AbstractState, answer: AbstractValue)
    ensures { state.new ≡ state_behind_helper state.old answer }
{
    let unset = AbstractValue::Unset;
    let known = state.own.registers;
    state.own.registers = [
        answer, unset, unset, unset, unset, unset, known[6], known[7], known[8], known[9],
        known[10],
    ];
}

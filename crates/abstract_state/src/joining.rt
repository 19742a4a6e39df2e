//! What is known where two ways meet, of all registers and the stacks.
ghost use Rattle.std.specs.Prelude.{◌≡◌, ◌<◌, ◌&&◌, IsTrue, length, map};
ghost use Rattle.abstract_values.specs.Values.{join_of};
ghost use Rattle.abstract_state.specs.States.{most_callers, elementwise, join_of_frames, join_if_live, join_of_states};
ghost use Rattle.abstract_state.specs.Joining.{joined_from};
ghost use Rattle.abstract_state.specs.Called.{frame_called, kept_by, places_of};

use crate::state::{AbstractState, Called, Callees, Frame, MOST_CALLERS, Places};
use abstract_values::{AbstractValue, join};

/// Whether a number's range has the other's.
#[inline(always)]
fn keeps_number(value: AbstractValue, other: AbstractValue) -> bool
    ensures { IsTrue result → join_of value other ≡ value }
{
    match (value, other) {
        (
            AbstractValue::Number { lo, hi },
            AbstractValue::Number {
                lo: least,
                hi: greatest,
            },
        ) => lo <= least && greatest <= hi,
        _ => false,
    }
}

/// Whether nothing is known, so that nothing is lost, whatever the other is.
#[inline(always)]
fn stays_unset(value: AbstractValue, _other: AbstractValue) -> bool
    ensures { IsTrue result → join_of value _other ≡ value }
{
    matches!(value, AbstractValue::Unset)
}

/// Whether an address has the other in its range.
#[inline(always)]
fn keeps_address(value: AbstractValue, other: AbstractValue) -> bool
    ensures { IsTrue result → join_of value other ≡ value }
{
    match (value, other) {
        (
            AbstractValue::Record { lo, hi },
            AbstractValue::Record {
                lo: least,
                hi: greatest,
            },
        )
        | (
            AbstractValue::Table { lo, hi },
            AbstractValue::Table {
                lo: least,
                hi: greatest,
            },
        ) => lo <= least && greatest <= hi,
        (
            AbstractValue::Stack { frame, offset },
            AbstractValue::Stack {
                frame: its_frame,
                offset: its_offset,
            },
        ) => frame == its_frame && offset == its_offset,
        _ => false,
    }
}

/// Joins from a place on at which neither loop of the caller goes further, and returns the next place: it passes over addresses
/// that stay, or else joins this one value. It is a call, so that numbers take few instructions.
#[inline(never)]
fn join_from(values: &mut [AbstractValue], others: &[AbstractValue], from: usize) -> usize
    requires long { length values.old ≡ length others.now }
    requires inside { from < length values.old }
    ensures ahead { from < result }
    ensures long { length values.new ≡ length values.old }
    ensures joined { joined_from result values.new others.now ≡ joined_from from values.old others.now }
{
    let mut at = from;
    'addresses: while at < values.len() && keeps_address(values[at], others[at]) {
        at += 1;
    }
    if at > from {
        return at;
    }
    values[from] = join(values[from], others[from]);
    from + 1
}

/// Joins each value with the other's. Most stay as they are: runs of numbers and runs of unset values are passed over in a
/// loop each, which takes fewer instructions than one loop for both.
fn join_values(values: &mut [AbstractValue], others: &[AbstractValue])
    requires { length values.old ≡ length others.now }
    ensures { values.new ≡ elementwise join_of values.old others.now }
{
    let mut at = 0usize;
    'values: while at < values.len() {
        'numbers: while at < values.len() && keeps_number(values[at], others[at]) {
            at += 1;
        }
        'unset: while at < values.len() && stays_unset(values[at], others[at]) {
            at += 1;
        }
        if at < values.len() {
            at = join_from(values, others, at);
        }
    }
}

fn are_both(first: bool, second: bool) -> bool
    ensures { result ≡ (first && second) }
{
    first && second
}

/// Keeps the flags that are set in both.
fn keep_set(flags: &mut [bool], others: &[bool])
    requires { length flags.old ≡ length others.now }
    ensures { flags.new ≡ elementwise (λ a b. a && b) flags.old others.now }
{
    for i in 0..flags.len() {
        flags[i] = are_both(flags[i], others[i]);
    }
}

/// Joins what is known of a frame's bytes.
fn join_frame(frame: &mut Frame, other: &Frame)
    ensures { frame.new ≡ join_of_frames frame.old other.now }
{
    keep_set(&mut frame.bytes_set, &other.bytes_set);
    join_values(&mut frame.slots, &other.slots);
}

/// A frame of a called function is live that is live by both ways.
fn join_if_called(called: Option<Box<Called>>, other: &Option<Box<Called>>) -> Option<Box<Called>>
    ensures frame { frame_called result ≡ join_if_live (frame_called called) (frame_called other.now) }
    ensures kept { kept_by result ≡ elementwise join_of (kept_by called) (kept_by other.now) }
{
    let Some(mut called) = called else {
        return None;
    };
    match other {
        None => None,
        Some(other) => {
            join_frame(&mut called.frame, &other.frame);
            join_values(&mut called.kept, &other.kept);
            Some(called)
        }
    }
}

/// Joins the frames of called functions.
fn join_places(called: &mut Places, others: &Places)
    ensures frames { map frame_called called.new
        ≡ elementwise join_if_live (map frame_called called.old) (map frame_called others.now) }
    ensures kept { map kept_by called.new
        ≡ elementwise (elementwise join_of) (map kept_by called.old) (map kept_by others.now) }
{
    for i in 0..MOST_CALLERS {
        let frame = called[i].take();
        called[i] = join_if_called(frame, &others[i]);
    }
}

/// There is a place for each function that may wait. It only carries the proof.
fn has_all(places: &Places)
    ensures { length places.now ≡ most_callers }
{}

/// The same, where any function is called.
fn join_called(called: Option<Box<Callees>>, other: &Option<Box<Callees>>) -> Option<Box<Callees>>
    ensures frames { map frame_called (places_of result)
        ≡ elementwise join_if_live (map frame_called (places_of called)) (map frame_called (places_of other.now)) }
    ensures kept { map kept_by (places_of result)
        ≡ elementwise (elementwise join_of) (map kept_by (places_of called)) (map kept_by (places_of other.now)) }
{
    match (called, other) {
        (None, None) => None,
        (None, Some(others)) => {
            has_all(&others.places);
            None
        }
        (Some(callees), None) => {
            has_all(&callees.places);
            None
        }
        (Some(mut callees), Some(others)) => {
            join_places(&mut callees.places, &others.places);
            Some(callees)
        }
    }
}

/// What is known where one way more comes in. A place with one way needs no join: its state is moved.
#[inline(never)]
pub fn join_into(state: &mut AbstractState, other: &AbstractState)
    ensures { state.new ≡ join_of_states state.old other.now }
{
    join_values(&mut state.own.registers, &other.own.registers);
    join_frame(&mut state.own.frame, &other.own.frame);
    let called = state.called.take();
    state.called = join_called(called, &other.called);
}

//! The last pass: what is known at each walked pc, and whether the instructions' rules hold of it. A function is gone
//! through again for each call of it.
ghost use Rattle.std.specs.Prelude.{◌≡◌, ◌<◌, ◌≤◌, ◌+◌, ℕ, None, Some, Ok, Err, IfOk, MatchResult, MatchOption, Option, length, slice_set};
ghost use Rattle.bpf_isa.specs.declared.limits.TheConstants.{MOST_UNITS};
ghost use Rattle.bpf_image.specs.Program.{units};
ghost use Rattle.abstract_state.specs.States.{AbstractState as Known, most_callers};
ghost use Rattle.verifier.specs.Rules.{branch_ways};
ghost use Rattle.verifier.specs.RuleAnswers.{ways_onward};
ghost use Rattle.verifier.specs.Equations.{Passage as Gone, joined_with, joined_ways, ways_after, outcome, calls_of};
ghost use Rattle.verifier.specs.Verdict.{rule_refusal, unless_memory};
ghost use Rattle.verifier.specs.Known.{IsBrokenAt};
ghost use Rattle.verifier.specs.Tables.{Table, state_at, passage_of, LeadInside, IsGoneTo, IsAtCall, Reaches};

use crate::layout::Layout;
use crate::passage::{Passage, Point};
use crate::places::{entry_called_at, length_of, place_at, starting_at};
use crate::refusal::Refusal;
use crate::rules::{Onward, exit};
use crate::states::{Side, arrive, arrive_beside, arrive_by_side, move_on, no_states, step_at};
use abstract_state::{AbstractState, MOST_CALLERS, enter_call, join_into, leave_call};
use abstract_values::Sides;
use bpf_image::Image;
use bpf_isa::{Instruction, Operand, Register};
use std::alloc::{AllocError, Global};

/// A branch that was gone over: what it compares, how far it goes, and what each side shows.
#[derive(Clone, Copy)]
struct Split {
    compared: (Register, Operand),
    distance: i16,
    sides: Sides,
}

/// Both sides of a branch go on with what they know.
#[inline(never)]
fn go_both_ways(
    alloc: Global,
    states: &mut Vec<Option<AbstractState>>,
    pc: usize,
    split: Split,
    state: AbstractState,
) -> Result<(), AllocError>
    requires near { pc ≤ MOST_UNITS }
    requires inside { LeadInside (length states.old.items)
        (branch_ways pc split.distance state split.compared.0 split.compared.1 split.sides) }
    ensures gone { IfOk result (λ _. (q : ℕ) → state_at states.new.items q
        ≡ joined_ways (state_at states.old.items q)
        (branch_ways pc split.distance state split.compared.0 split.compared.1 split.sides) q) }
    ensures same_length { length states.new.items ≡ length states.old.items }
{
    let Split {
        compared,
        distance,
        sides,
    } = split;
    let taken = Side {
        place: place_at(pc, i32::from(distance)),
        values: sides.taken,
    };
    let passed = Side {
        place: (pc + 1) as i64,
        values: sides.passed,
    };
    if sides.passed.is_none() {
        arrive_by_side(states, compared, taken, state);
        return Ok(());
    }
    let mut state = state;
    arrive_beside(alloc, states, compared, taken, &mut state)?;
    arrive_by_side(states, compared, passed, state);
    Ok(())
}

/// An instruction that was gone over, and how a run may go on after it.
#[derive(Clone, Copy)]
struct Stepped {
    instruction: Instruction,
    onward: Onward,
}

/// A run goes on after an instruction with what is known there, in the same function.
fn go_on(
    alloc: Global,
    states: &mut Vec<Option<AbstractState>>,
    pc: usize,
    stepped: Stepped,
    state: AbstractState,
) -> Result<(), AllocError>
    requires near { pc ≤ MOST_UNITS }
    requires inside { LeadInside (length states.old.items) (ways_onward pc stepped.instruction stepped.onward state) }
    ensures gone { IfOk result (λ _. (q : ℕ) → state_at states.new.items q
        ≡ joined_ways (state_at states.old.items q) (ways_onward pc stepped.instruction stepped.onward state) q) }
    ensures same_length { length states.new.items ≡ length states.old.items }
{
    match (stepped.onward, stepped.instruction) {
        (Onward::Next, instruction) => arrive(states, (pc + instruction.units()) as i64, state),
        (Onward::Jumps, Instruction::Jump { distance }) => {
            arrive(states, place_at(pc, length_of(distance)), state);
        }
        (
            Onward::Splits(sides),
            Instruction::Branch {
                left,
                right,
                distance,
                ..
            },
        ) => {
            let split = Split {
                compared: (left, right),
                distance,
                sides,
            };
            return go_both_ways(alloc, states, pc, split, state);
        }
        _ => {}
    }
    Ok(())
}

/// A run goes on after an instruction with what is known at its pc, in the same function.
#[inline(always)]
fn go_on_from(
    alloc: Global,
    states: &mut Vec<Option<AbstractState>>,
    pc: usize,
    instruction: Instruction,
    onward: Onward,
) -> Result<(), AllocError>
    requires near { pc ≤ MOST_UNITS }
    requires here { pc < length states.old.items }
    requires inside { (state : Known) × (state_at states.old.items pc ≡ Some state)
        × LeadInside (length states.old.items) (ways_onward pc instruction onward state) }
    ensures gone { IfOk result (λ _. (state : Known) → state_at states.old.items pc ≡ Some state
        → (q : ℕ) → state_at states.new.items q
        ≡ joined_ways (state_at (slice_set states.old.items pc None) q) (ways_onward pc instruction onward state) q) }
    ensures same_length { length states.new.items ≡ length states.old.items }
{
    match onward {
        Onward::Next => {
            move_on(states, pc, pc + instruction.units());
            Ok(())
        }
        _ => match states[pc].take() {
            None => Ok(()),
            Some(state) => {
                let stepped = Stepped {
                    instruction,
                    onward,
                };
                go_on(alloc, states, pc, stepped, state)
            }
        },
    }
}

/// One exit more leaves what is known there.
fn join_exit(exits: &mut Option<AbstractState>, state: AbstractState)
    ensures { exits.new ≡ joined_with exits.old state }
{
    match exits.take() {
        None => *exits = Some(state),
        Some(mut known) => {
            join_into(&mut known, &state);
            *exits = Some(known);
        }
    }
}

/// What is known after a call comes to the next instruction, if the function may return.
pub(crate) fn go_on_after(
    states: &mut Vec<Option<AbstractState>>,
    pc: usize,
    left: Option<AbstractState>,
)
    requires near { pc ≤ MOST_UNITS }
    requires inside { pc + 1 < length states.old.items }
    ensures gone { (q : ℕ) → state_at states.new.items q
        ≡ joined_ways (state_at states.old.items q) (ways_after pc (Ok left)) q }
    ensures same_length { length states.new.items ≡ length states.old.items }
{
    if let Some(state) = left {
        arrive(states, (pc + 1) as i64, state);
    }
}

/// Goes over what is at a pc of a passage, if that is walked. At a call it answers where the function begins that is called,
/// and what is known there.
#[inline(always)]
pub(crate) fn visit(
    alloc: Global,
    layout: &Layout<'_>,
    states: &mut Vec<Option<AbstractState>>,
    exits: &mut Option<AbstractState>,
    here: Point,
) -> Result<Option<(usize, AbstractState)>, Refusal>
    requires inside { here.pc < units layout.now.image.now }
    requires long { length states.old.items ≡ units layout.now.image.now }
    requires frame { here.frame ≤ most_callers }
    ensures gone { (v : Gone) (old : Table) (last : ℕ) → v.frame ≡ here.frame → v.entry ≤ here.pc
        → let p = layout.now.image.now in let calls = calls_of p v in
        IsGoneTo p calls v old here.pc last states.old.items exits.old
        → MatchResult result
        (λ called. MatchOption called
        ((further : ℕ) → last ≤ further → Reaches p here.pc further
        → IsGoneTo p calls v old (here.pc + 1) further states.new.items exits.new)
        (λ call. IsAtCall p calls v old here.pc last states.new.items exits.new call.0 call.1))
        (λ refusal. unless_memory refusal (IsBrokenAt p v here.pc refusal)) }
{
    let Point { pc, frame } = here;
    let Layout { image, listing, .. } = *layout;
    let Some(instruction) = starting_at(image, listing, pc) else {
        states[pc] = None;
        return Ok(None);
    };
    match instruction {
        Instruction::Exit => {
            let Some(mut state) = states[pc].take() else {
                return Ok(None);
            };
            if let Err(cause) = exit(&state) {
                return Err(Refusal { cause, pc });
            }
            if frame == 0 {
                return Ok(None);
            }
            leave_call(&mut state, frame - 1);
            join_exit(exits, state);
            Ok(None)
        }
        Instruction::CallLocal { .. } => {
            let Some(mut state) = states[pc].take() else {
                return Ok(None);
            };
            let Some(entry) = entry_called_at(image, listing, pc) else {
                return Ok(None);
            };
            if usize::from(frame) >= MOST_CALLERS {
                return Ok(None);
            }
            enter_call(alloc, &mut state, frame)?;
            Ok(Some((entry, state)))
        }
        _ => match step_at(states, pc, image.lengths(), instruction) {
            None => Ok(None),
            Some(Err(cause)) => Err(Refusal { cause, pc }),
            Some(Ok(onward)) => {
                go_on_from(alloc, states, pc, instruction, onward)?;
                Ok(None)
            }
        },
    }
}

/// Goes through a passage: answers what is known after its exits.
pub(crate) fn go_through(
    alloc: Global,
    layout: &Layout<'_>,
    states: &mut Vec<Option<AbstractState>>,
    passage: Passage,
) -> Result<Option<AbstractState>, Refusal>
    requires few { units layout.now.image.now ≤ MOST_UNITS }
    requires inside { passage.entry < units layout.now.image.now }
    requires long { length states.old.items ≡ units layout.now.image.now }
    requires clear { (q : ℕ) → passage.entry ≤ q → state_at states.old.items q ≡ None }
    requires frame { passage.frame ≤ most_callers }
    ensures comes { let p = layout.now.image.now in let v = passage_of passage in
        MatchResult result (λ exits. outcome p (calls_of p v) v ≡ Ok exits)
        (λ refusal. unless_memory refusal (outcome p (calls_of p v) v ≡ Err refusal)) }
    ensures before { IfOk result (λ _. (q : ℕ) → state_at states.new.items q ≡ state_at states.old.items q) }
    ensures same_length { IfOk result (λ _. length states.new.items ≡ length states.old.items) }
{
    let Passage {
        entry,
        frame,
        known,
    } = passage;
    let mut exits = None;
    arrive(states, entry as i64, known);
    let end = usize::from(layout.ends[entry]);
    for pc in entry..end {
        let here = Point { pc, frame };
        let opened = match visit(alloc, layout, states, &mut exits, here) {
            Err(refusal) => return Err(refusal),
            Ok(opened) => opened,
        };
        if let Some((begins, known)) = opened {
            let callee = Passage {
                entry: begins,
                frame: frame + 1,
                known,
            };
            match go_through(alloc, layout, states, callee) {
                Err(refusal) => return Err(refusal),
                Ok(left) => go_on_after(states, pc, left),
            }
        }
    }
    Ok(exits)
}

/// Goes through the whole program, and finds the first broken rule.
pub(crate) fn walk(alloc: Global, layout: &Layout<'_>) -> Result<(), Refusal>
    ensures { MatchResult result (λ _. rule_refusal layout.now.image.now ≡ None)
        (λ refusal. unless_memory refusal (rule_refusal layout.now.image.now ≡ Some refusal)) }
{
    let image = layout.image;
    let mut states = no_states(alloc, image.code().len() / 8)?;
    let known = AbstractState::entry(alloc, image.lengths())?;
    let main = Passage {
        entry: 0,
        frame: 0,
        known,
    };
    match go_through(alloc, layout, &mut states, main) {
        Err(refusal) => Err(refusal),
        Ok(_) => Ok(()),
    }
}

//! What usually helps where a rule is broken.
ghost use Rattle.std.specs.Prelude.{◌≡◌};
ghost use Rattle.explanation.specs.Advice.{
  unset_advice,
  sum_advice,
  difference_advice,
  alu_advice,
  base_advice,
  pointer_advice,
  reach_advice,
  operand_advice,
  range_advice,
  advice_at as advice_at_instruction,
};

use abstract_state::AbstractState;
use abstract_values::AbstractValue;
use bpf_isa::{Instruction, Operand, Operation, Width};
use bpf_model::Cause;

/// What usually helps.
#[derive(Clone, Copy)]
pub(crate) enum Advice {
    /// No instruction stands there: which ones there are.
    KnownInstructions,
    /// Where a jump may land.
    LandInside,
    /// A loop.
    Unroll,
    /// Which way calls go.
    ForwardCalls,
    /// How a function ends.
    EndFunctions,
    /// A nest of calls is too deep.
    FewerFrames,
    /// A run may be too long.
    ShorterRuns,
    /// A register is read that is not set.
    SetRegister,
    /// The result is not set.
    SetResult,
    /// R10 is written.
    CopyFrameRegister,
    /// A pointer is added to a number.
    SwapOperands,
    /// A place in the frame is moved by a range.
    MoveByConstants,
    /// What may be done with a pointer.
    MovePointers,
    /// A pointer is compared.
    CompareNumbers,
    /// A number is used as an address.
    NoTables,
    /// A pointer is stored where it may not be.
    SpillWhole,
    /// A range reaches too far.
    TestFirst,
    /// One place is too far.
    KnowTheReach,
    /// Bytes of the frame are read that are not set.
    SetBytes,
    /// What helpers ask of their arguments.
    HelperArguments,
    /// Which helpers there are.
    KnownHelpers,
    /// A function answers a pointer.
    AnswerNumber,
    /// There was no memory.
    MoreMemory,
    /// The table is written.
    WriteElsewhere,
    /// Functions are called at too many places.
    FewerCalls,
}

fn advice_on_unset(instruction: Instruction) -> Advice
    ensures { result ≡ unset_advice instruction }
{
    match instruction {
        Instruction::Exit => Advice::SetResult,
        _ => Advice::SetRegister,
    }
}

fn advice_on_sum(left: AbstractValue) -> Advice
    ensures { result ≡ sum_advice left }
{
    match left {
        AbstractValue::Number { .. } => Advice::SwapOperands,
        AbstractValue::Stack { .. } => Advice::MoveByConstants,
        AbstractValue::Record { .. } | AbstractValue::Table { .. } | AbstractValue::Unset => {
            Advice::MovePointers
        }
    }
}

fn advice_on_difference(left: AbstractValue) -> Advice
    ensures { result ≡ difference_advice left }
{
    match left {
        AbstractValue::Stack { .. } => Advice::MoveByConstants,
        _ => Advice::MovePointers,
    }
}

fn advice_on_alu(width: Width, operation: Operation, left: AbstractValue) -> Advice
    ensures { result ≡ alu_advice width operation left }
{
    match (width, operation) {
        (Width::Bits64, Operation::Add) => advice_on_sum(left),
        (Width::Bits64, Operation::Subtract) => advice_on_difference(left),
        _ => Advice::MovePointers,
    }
}

fn advice_on_base(base: AbstractValue) -> Advice
    ensures { result ≡ base_advice base }
{
    match base {
        AbstractValue::Number { .. } => Advice::NoTables,
        _ => Advice::SpillWhole,
    }
}

fn advice_on_pointer(instruction: Instruction, state: &AbstractState) -> Advice
    ensures { result ≡ pointer_advice instruction state.now }
{
    match instruction {
        Instruction::Alu {
            width,
            operation,
            destination,
            ..
        } => advice_on_alu(width, operation, state.register(destination)),
        Instruction::Branch { .. } => Advice::CompareNumbers,
        Instruction::Load { base, .. }
        | Instruction::LoadSigned { base, .. }
        | Instruction::Store { base, .. }
        | Instruction::StoreRegister { base, .. } => advice_on_base(state.register(base)),
        _ => Advice::MovePointers,
    }
}

fn advice_on_reach(value: AbstractValue) -> Advice
    ensures { result ≡ reach_advice value }
{
    let is_range = match value {
        AbstractValue::Record { lo, hi } | AbstractValue::Table { lo, hi } => lo != hi,
        AbstractValue::Number { lo, hi } => lo != hi,
        AbstractValue::Stack { .. } | AbstractValue::Unset => false,
    };
    if is_range {
        Advice::TestFirst
    } else {
        Advice::KnowTheReach
    }
}

fn advice_on_operand(operand: Operand, moved: AbstractValue, state: &AbstractState) -> Advice
    ensures { result ≡ operand_advice operand moved state.now }
{
    match operand {
        Operand::Immediate(_) => advice_on_reach(moved),
        Operand::Source(register) => advice_on_reach(state.register(register)),
    }
}

fn advice_on_range(instruction: Instruction, state: &AbstractState) -> Advice
    ensures { result ≡ range_advice instruction state.now }
{
    match instruction {
        Instruction::Alu {
            destination,
            operand,
            ..
        } => advice_on_operand(operand, state.register(destination), state),
        Instruction::Load { base, .. }
        | Instruction::LoadSigned { base, .. }
        | Instruction::Store { base, .. }
        | Instruction::StoreRegister { base, .. } => advice_on_reach(state.register(base)),
        _ => Advice::KnowTheReach,
    }
}

/// What usually helps against a broken rule at an instruction, before which so much is known.
pub(crate) fn advice_at(cause: Cause, instruction: Instruction, state: &AbstractState) -> Advice
    ensures { result ≡ advice_at_instruction cause instruction state.now }
{
    match cause {
        Cause::BadInstruction => Advice::KnownInstructions,
        Cause::JumpOut => Advice::LandInside,
        Cause::JumpBack => Advice::Unroll,
        Cause::CallTarget => Advice::ForwardCalls,
        Cause::FallsOff => Advice::EndFunctions,
        Cause::TooDeep => Advice::FewerFrames,
        Cause::TooLong => Advice::ShorterRuns,
        Cause::UnsetRegister => advice_on_unset(instruction),
        Cause::FrameRegister => Advice::CopyFrameRegister,
        Cause::PointerUse => advice_on_pointer(instruction, state),
        Cause::OutOfRange => advice_on_range(instruction, state),
        Cause::UnsetStackByte => Advice::SetBytes,
        Cause::HelperArgument => Advice::HelperArguments,
        Cause::UnknownHelper => Advice::KnownHelpers,
        Cause::ResultNotNumber => Advice::AnswerNumber,
        Cause::OutOfMemory => Advice::MoreMemory,
        Cause::ReadOnly => Advice::WriteElsewhere,
        Cause::TooManyPairs => Advice::FewerCalls,
    }
}

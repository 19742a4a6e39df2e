//! The rules, and what usually helps, in words: the one place where they stand.
ghost use Rattle.std.specs.Prelude.{◌≡◌};
ghost use Rattle.explanation.specs.Words.{cause_text, advice_text};

use crate::advice::Advice;
use bpf_model::Cause;

/// A rule in words: what is wrong.
pub(crate) fn words_of_cause(cause: Cause) -> &'static str
    ensures { result.now ≡ cause_text cause }
{
    match cause {
        Cause::BadInstruction => "no instruction stands there",
        Cause::JumpOut => "a jump leads where no instruction starts, or out of its function",
        Cause::JumpBack => "a jump leads back, and there are no loops",
        Cause::CallTarget => "a call leads where no instruction starts, or not after itself",
        Cause::FallsOff => "a function ends neither in an exit nor in a jump",
        Cause::TooDeep => "more than eight functions may be live at once",
        Cause::TooLong => "more than 1,000,000 instructions may run",
        Cause::UnsetRegister => {
            "a register is read of which nothing is known: it may be unset, or the ways that lead here set it to unlike values"
        }
        Cause::FrameRegister => "r10 is written, which only points to the frame",
        Cause::PointerUse => {
            "a pointer stands where only a number may, or a number where only a pointer may"
        }
        Cause::OutOfRange => {
            "bytes may lie outside the record, the table or the frame, or a pointer may leave them"
        }
        Cause::UnsetStackByte => "bytes of the frame are read that may be unset",
        Cause::HelperArgument => "an argument of a helper is not what it has to be",
        Cause::UnknownHelper => "there is no helper of this number",
        Cause::ResultNotNumber => "a function answers a pointer",
        Cause::OutOfMemory => "there was no memory to verify it",
        Cause::ReadOnly => "a store or gather goes to the table, which is only read",
        Cause::TooManyPairs => {
            "more than 1,000,000 instructions are to be verified: a function counts once for each call of it in the code"
        }
    }
}

/// What usually helps, in words.
pub(crate) fn words_of_advice(advice: Advice) -> &'static str
    ensures { result.now ≡ advice_text advice }
{
    match advice {
        Advice::KnownInstructions => {
            "use the instructions of RFC 9669, groups base64 and divmul64: there are no atomic ones, and none for the address of a table in .rodata or of other data"
        }
        Advice::LandInside => "put the label before an instruction of the same function",
        Advice::Unroll => {
            "have the loop unrolled as often as it may go round, or ask for neighbours by gather, which answers a known number of them at most"
        }
        Advice::ForwardCalls => "put each function after all that call it, and use no recursion",
        Advice::EndFunctions => "end each function in exit",
        Advice::FewerFrames => "have functions inlined, so that calls nest less deep",
        Advice::ShorterRuns => "unroll fewer rounds, or call functions less often on one way",
        Advice::SetRegister => {
            "set the register on each way that leads here: on all to a number, on all to the record or the table, or to the same place of a frame; a call leaves r1 to r5 unset, so keep what is needed in r6 to r9"
        }
        Advice::SetResult => "set r0 on each way that leads to the exit",
        Advice::CopyFrameRegister => "copy r10 to another register by mov, and move that one",
        Advice::SwapOperands => {
            "swap the operands: add the number to the pointer, and not the pointer to the number"
        }
        Advice::MoveByConstants => {
            "move a pointer into the frame by constants alone; what is reached at an index belongs into the record"
        }
        Advice::MovePointers => {
            "do no more with a pointer than mov, and add or sub of a number in 64 bits"
        }
        Advice::CompareNumbers => {
            "compare numbers alone, such as two offsets in place of two pointers"
        }
        Advice::NoTables => {
            "go by a pointer to the record, the frame or the table; a table in .rodata is not there: mark one const object TABLE, pack its numbers into a constant, or hand them in as the argument of the run"
        }
        Advice::SpillWhole => {
            "store a pointer by stxdw to the frame alone, at a multiple of 8 below r10"
        }
        Advice::TestFirst => {
            "test the number first: compare it with a constant, in 64 bits unless it is known to have 32, and use what was compared where it is small enough; a signed number may be below zero besides"
        }
        Advice::KnowTheReach => {
            "stay inside: record and table have as many bytes as their lengths say, from 0 on, and the frame has 512 below r10"
        }
        Advice::SetBytes => "store to these bytes on each way that leads here",
        Advice::HelperArguments => {
            "vertices and places are numbers; r3 of gather is a pointer, and its r4 a constant multiple of 4 from 4 to 256"
        }
        Advice::KnownHelpers => {
            "the helpers are 1 degree, 2 has_edge, 3 neighbour, 4 vertex_count and 5 gather"
        }
        Advice::AnswerNumber => "answer a number, such as the one to which the pointer points",
        Advice::MoreMemory => "try again with more memory",
        Advice::WriteElsewhere => "write to the record or the frame; copy there what is to change",
        Advice::FewerCalls => {
            "call functions at fewer places, above all those that call others, and drop functions that no run reaches"
        }
    }
}

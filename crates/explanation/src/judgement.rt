//! What the verifier answers.
ghost use Rattle.std.specs.Prelude.{◌≡◌};
ghost use Rattle.explanation.specs.Judging.{judges_values as judges_values_of, is_of_the_whole as is_of_the_whole_of, lists_states as lists_states_of};

use bpf_model::Cause;
use verifier::Refusal;

/// What the verifier answers.
#[derive(Clone, Copy, Debug, PartialEq, Eq)]
pub enum Judgement {
    /// With the greatest number of instructions that a run counts, and the greatest number of frames.
    Accepted { bound: u32, frames: u8 },
    /// With the first broken rule.
    Refused(Refusal),
}

/// Whether a rule is one of the last pass, which looks at what is known.
pub(crate) fn judges_values(cause: Cause) -> bool
    ensures { result ≡ judges_values_of cause }
{
    match cause {
        Cause::BadInstruction
        | Cause::JumpOut
        | Cause::JumpBack
        | Cause::CallTarget
        | Cause::FallsOff
        | Cause::TooDeep
        | Cause::TooLong
        | Cause::TooManyPairs
        | Cause::OutOfMemory => false,
        Cause::UnsetRegister
        | Cause::FrameRegister
        | Cause::PointerUse
        | Cause::OutOfRange
        | Cause::UnsetStackByte
        | Cause::HelperArgument
        | Cause::UnknownHelper
        | Cause::ResultNotNumber
        | Cause::ReadOnly => true,
    }
}

/// Whether a rule is broken by a program as a whole.
pub(crate) fn is_of_the_whole(cause: Cause) -> bool
    ensures { result ≡ is_of_the_whole_of cause }
{
    matches!(cause, Cause::TooDeep | Cause::TooLong | Cause::TooManyPairs)
}

impl Judgement {
    /// Whether the state at each pc is listed.
    pub(crate) fn lists_states(self) -> bool
        ensures { result ≡ lists_states_of self }
    {
        match self {
            Judgement::Accepted { .. } => true,
            Judgement::Refused(refusal) => judges_values(refusal.cause),
        }
    }
}

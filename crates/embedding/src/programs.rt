//! Programs, which are verified before they can be run.
ghost use Rattle.std.specs.Prelude.{◌≡◌, ◌≢◌, ◌⊎◌, min, Some, IfOk, MatchOption};
ghost use Rattle.bpf_isa.specs.declared.limits.TheConstants.{MOST_UNITS};
ghost use Rattle.bpf_image.specs.Program.{IsImage};
ghost use Rattle.verifier.specs.Causes.{cause_number};
ghost use Rattle.embedding.specs.declared.statuses.TheConstants.{DONE, NO_MEMORY, REFUSED};
ghost use Rattle.embedding.specs.Holding.{OnProgram, HoldsProgram};
ghost use Rattle.embedding.specs.Batches.{IsHandedOut};
ghost use Rattle.embedding.specs.Programs.{IsImageOf, IsOfLength, NamesLength, IsAccepted, IsRefused};

use crate::handle::{Handle, hand_out};
use crate::held::Held;
use crate::runnable::Runnable;
use crate::statuses::{CODE_LENGTH, NO_MEMORY, OTHER_KIND, RECORD_LENGTH, REFUSED, TABLE_LENGTH};
use bpf_image::{Image, ImageError};
use bpf_isa::MOST_UNITS;
use std::alloc::{AllocError, Global};
use std::marker::Model;
use verifier::{Cause, Refusal, Verified, verify};

/// What the verifier says of a program: the bound and the frames of one that it accepts, the cause and the place of one that
/// it refuses. The others are 0.
#[repr(C)]
#[derive(Clone, Copy, Debug, PartialEq, Eq)]
pub struct Verdict {
    /// The most instructions that a run executes.
    pub bound: u32,
    /// The most stack frames that are live at once.
    pub frames: u32,
    /// The rule that is broken, by its number.
    pub cause: u32,
    /// The unit of the code that breaks it, from 0.
    pub pc: u32,
}

/// A program as a host hands it in. Contracts see the program of these bytes.
#[derive(Drop)]
pub struct ProgramBytes<'a> {
    /// How many bytes the record of a run has.
    pub record_length: u16,
    /// The instructions.
    pub code: &'a [u8],
    /// The table that runs read. Without a byte there is none.
    pub table: &'a [u8],
}

impl<'a> Model for ProgramBytes<'a> {
    ghost use Rattle.bpf_image.specs.Program.{Program};
    ghost use Rattle.embedding.specs.Programs.{program_of};

    ghost Value = { Program };

    ghost view = { λ b. program_of b.record_length b.code.now b.table.now };
}

/// The status of the first length that no image has. Lengths are tested before bytes are copied, of which there may be many.
fn length_status(bytes: &ProgramBytes<'_>) -> Option<u32>
    ensures { MatchOption result (IsImage bytes.now) (λ status. NamesLength bytes.now status × IsOfLength status) }
{
    match Image::wrong_length(bytes.record_length, bytes.code.len(), bytes.table.len())? {
        ImageError::RecordLength => Some(RECORD_LENGTH),
        ImageError::CodeLength => Some(CODE_LENGTH),
        ImageError::TableLength => Some(TABLE_LENGTH),
        ImageError::Magic | ImageError::Length | ImageError::OutOfMemory => unreachable!(),
    }
}

/// The image of bytes that have the lengths of one.
fn copy_of(alloc: Global, bytes: &ProgramBytes<'_>) -> Result<Image, AllocError>
    requires { IsImage bytes.now }
    ensures { IfOk result (λ image. image ≡ bytes.now) }
{
    let code = Vec::from_slice(alloc, bytes.code)?;
    if bytes.table.is_empty() {
        match Image::new(bytes.record_length, code) {
            Ok(image) => return Ok(image),
            Err(_) => unreachable!(),
        }
    }
    let table = Vec::from_slice(alloc, bytes.table)?;
    match Image::with_table(bytes.record_length, code, table) {
        Ok(image) => Ok(image),
        Err(_) => unreachable!(),
    }
}

/// The image of these bytes, or why there is none: its status.
pub(crate) fn image_of(alloc: Global, bytes: &ProgramBytes<'_>) -> Result<Image, u32>
    ensures { IsImageOf bytes.now result }
{
    if let Some(status) = length_status(bytes) {
        return Err(status);
    }
    match copy_of(alloc, bytes) {
        Ok(image) => Ok(image),
        Err(_) => Err(NO_MEMORY),
    }
}

// The verdict on a program that is accepted.
fn accepted(program: &Verified) -> Verdict
    ensures { IsAccepted program.now result }
{
    Verdict {
        bound: program.bound(),
        frames: u32::from(program.frames()),
        cause: 0,
        pc: 0,
    }
}

// The verdict on one that is refused.
fn refused(refusal: Refusal) -> Verdict
    ensures cause { result.cause ≡ cause_number refusal.cause }
    ensures pc { result.pc ≡ min refusal.pc MOST_UNITS }
    ensures others { (result.bound ≡ 0) × (result.frames ≡ 0) }
{
    Verdict {
        bound: 0,
        frames: 0,
        cause: refusal.cause as u32,
        pc: refusal.pc.min(MOST_UNITS) as u32,
    }
}

/// Verifies a program, and writes a handle of it if it is accepted. The status is that of the first test that fails: of the
/// record length, of the code's length, of the table's length, of the verifier; or `NO_MEMORY`.
pub fn new_program(
    alloc: Global,
    bytes: &ProgramBytes<'_>,
    verdict: &mut Verdict,
    out: &mut Handle,
) -> u32
    ensures lengths { NamesLength bytes.now result }
    ensures image { (result ≡ DONE) ⊎ (result ≡ REFUSED) → IsImage bytes.now }
    ensures others { result ≢ DONE → result ≢ REFUSED → (IsOfLength result → ⊥) → result ≡ NO_MEMORY }
    ensures made { result ≡ DONE → HoldsProgram out.new.held bytes.now }
    ensures accepted { result ≡ DONE → IsAccepted bytes.now verdict.new }
    ensures refused { result ≡ REFUSED → IsRefused bytes.now verdict.new }
    ensures left { result ≢ DONE → out.new.held ≡ out.old.held }
{
    let image = match image_of(alloc, bytes) {
        Ok(image) => image,
        Err(status) => return status,
    };
    match verify(alloc, image) {
        Ok(program) => {
            *verdict = accepted(&program);
            match Runnable::new(alloc, program) {
                Ok(runnable) => hand_out(alloc, Held::Program(runnable), out),
                Err(_) => NO_MEMORY,
            }
        }
        Err((_image, refusal)) if refusal.cause == Cause::OutOfMemory => NO_MEMORY,
        Err((_image, refusal)) => {
            *verdict = refused(refusal);
            REFUSED
        }
    }
}

/// Writes another handle of the program that a handle holds.
pub fn share_program_held(alloc: Global, held: &Held, out: &mut Handle) -> u32
    ensures { OnProgram (Some held.now) result (out.new.held ≡ out.old.held)
        (λ p. IsHandedOut result (HoldsProgram out.new.held p) (out.new.held ≡ out.old.held)) }
{
    match held {
        Held::Program(program) => match program.share(alloc) {
            Ok(runnable) => hand_out(alloc, Held::Program(runnable), out),
            Err(_) => NO_MEMORY,
        },
        Held::Store(_) => OTHER_KIND,
        Held::Version(_) => OTHER_KIND,
    }
}

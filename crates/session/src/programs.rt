//! The programs of a session.

ghost use Rattle.std.specs.Prelude.{◌≡◌, ◌≢◌, Ok, Err, IfOk, IfErr, IfSome, IfNone, is_some};
ghost use Rattle.bpf_image.specs.Program.{IsRecordLength, without_table};
ghost use Rattle.verifier.specs.Verdict.{verdict};
ghost use Rattle.session_model.specs.Faults.{program_fault, image_fault};
ghost use Rattle.session_model.specs.Images.{loaded};
ghost use Rattle.session_model.specs.Responses.{load_response, image_response, verdict_response, is_code};
ghost use Rattle.session.specs.Performs.{Performs};

use crate::answer::Answer;
use crate::error::CommandError;
use crate::kept::{NamedProgram, find_program};
use crate::session::Session;
use bpf_image::{Image, ImageError, LEAST_RECORD_LENGTH, MOST_RECORD_LENGTH};
use session_model::{Fault, MOST_KEPT};
use std::alloc::Global;
use std::sync::Arc;
use verifier::{Cause, verify};

impl Session {
    /// What is wrong with the name and the record length of a program more: `Order` before there is a
    /// graph, `Range` where the length is not 16 to 256, `Name` where a program has the name, `TooMany`
    /// where 256 are kept.
    pub fn program_fault(&self, name: &[u8], record_length: u64) -> Option<Fault>
        ensures fault { result ≡ program_fault name.now record_length self.now }
        ensures length { IfNone result (IsRecordLength record_length) }
    {
        if self.store.is_none() {
            return Some(Fault::Order);
        }
        if record_length < u64::from(LEAST_RECORD_LENGTH)
            || record_length > u64::from(MOST_RECORD_LENGTH)
        {
            return Some(Fault::Range);
        }
        if find_program(&self.programs, name).is_some() {
            return Some(Fault::Name);
        }
        if self.programs.len() >= MOST_KEPT {
            return Some(Fault::TooMany);
        }
        None
    }

    /// Loads a program, and keeps it where it is accepted.
    pub(crate) fn load_program<'a>(
        &mut self,
        name: &'a [u8],
        record_length: u64,
        code: Vec<u8>,
    ) -> Result<Answer<'a>, CommandError>
        ensures performed { Performs (load_response name.now
            (without_table code.items record_length) self.old) result self.old self.new }
        ensures kept { IfErr result (λ _. self.new ≡ self.old) }
    {
        if let Some(fault) = self.program_fault(name, record_length) {
            return Err(CommandError::Fault(fault));
        }
        match image_of(record_length as u16, code) {
            None => Ok(Answer::NoImage {
                name,
                error: ImageError::CodeLength,
            }),
            Some(image) => self.judge(name, image),
        }
    }

    /// What is wrong with the name of an image more: `Order` before there is a graph, `Name` where a program has the
    /// name, `TooMany` where 256 are kept.
    fn image_fault(&self, name: &[u8]) -> Option<Fault>
        ensures { result ≡ image_fault name.now self.now }
    {
        if self.store.is_none() {
            return Some(Fault::Order);
        }
        if find_program(&self.programs, name).is_some() {
            return Some(Fault::Name);
        }
        if self.programs.len() >= MOST_KEPT {
            return Some(Fault::TooMany);
        }
        None
    }

    /// Loads the program of an image's bytes, and keeps it where it is accepted.
    pub(crate) fn load_image<'a>(
        &mut self,
        name: &'a [u8],
        bytes: &[u8],
    ) -> Result<Answer<'a>, CommandError>
        ensures performed { Performs (image_response name.now bytes.now self.old) result self.old self.new }
        ensures kept { IfErr result (λ _. self.new ≡ self.old) }
    {
        if let Some(fault) = self.image_fault(name) {
            return Err(CommandError::Fault(fault));
        }
        match read_image(self.alloc, bytes) {
            Ok(image) => self.judge(name, image),
            Err(ImageError::OutOfMemory) => Err(CommandError::OutOfMemory),
            Err(error) => Ok(Answer::NoImage { name, error }),
        }
    }

    /// Keeps a program where the verifier accepts it, and says what it answered.
    fn judge<'a>(&mut self, name: &'a [u8], image: Image) -> Result<Answer<'a>, CommandError>
        ensures performed { Performs (verdict_response
            (verdict image) name.now image self.old) result self.old self.new }
        ensures kept { IfErr result (λ _. self.new ≡ self.old) }
    {
        match verify(self.alloc, image) {
            Err((_, refusal)) => {
                if matches!(refusal.cause, Cause::OutOfMemory) {
                    return Err(CommandError::OutOfMemory);
                }
                Ok(Answer::ProgramRefused { name, refusal })
            }
            Ok(program) => {
                let bound = program.bound();
                let frames = program.frames();
                let name_kept = Vec::from_slice(self.alloc, name)?;
                let program = Arc::new(self.alloc, program)?;
                self.programs.push(NamedProgram {
                    name: name_kept,
                    program,
                })?;
                Ok(Answer::ProgramAccepted {
                    name,
                    bound,
                    frames,
                })
            }
        }
    }
}

/// The image of some code, where its length is allowed.
fn image_of(record_length: u16, code: Vec<u8>) -> Option<Image>
    requires { IsRecordLength record_length }
    ensures made { IfSome result (λ image. image ≡ without_table code.items record_length) }
    ensures fits { is_some result ≡ is_code (without_table code.items record_length) }
{
    match Image::new(record_length, code) {
        Ok(image) => Some(image),
        Err(_) => None,
    }
}

/// The image of some bytes, or the first thing that is wrong with them.
fn read_image(alloc: Global, bytes: &[u8]) -> Result<Image, ImageError>
    ensures made { IfOk result (λ image. loaded bytes.now ≡ Ok image) }
    ensures fault { IfErr result (λ error. error ≢ ImageError.OutOfMemory → loaded bytes.now ≡ Err error) }
{
    match Image::load(alloc, bytes) {
        Ok(image) => {
            // An image keeps to the lengths that it may have.
            let _lengths = image.lengths();
            Ok(image)
        }
        Err(error) => Err(error),
    }
}

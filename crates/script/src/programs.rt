//! Programs in assembler text, line by line.

ghost use Rattle.std.specs.Prelude.{◌≡◌, ◌≢◌, ◌++◌, None, Some, [], Ok, OnOk, IfErr, true};
ghost use Rattle.std.specs.List.{list_all};
ghost use Rattle.bpf_asm.specs.declared.errors.TextCause.TheVariants.{OutOfMemory};
ghost use Rattle.script_model.specs.Lexing.{is_plain};
ghost use Rattle.script_model.specs.State.{Script as ScriptState, ProgramBlock};
ghost use Rattle.script_model.specs.Execution.{begin_program, one_line, end_program, inside_program, inside};
ghost use Rattle.script_model.specs.Texts.{assembler_text};
ghost use Rattle.script.specs.Kept.{open_program, HasText};
ghost use Rattle.script.specs.Executes.{Executes, Prints};

use crate::block::{BegunProgram, Block};
use crate::error::LineError;
use crate::reading::is_end;
use crate::script::Script;
use crate::statements::whole;
use crate::texts::put_assembler;
use bpf_asm::{AssembleError, TextCause, assemble};
use script_model::{LineFault, MOST_PROGRAM_LINES};
use session::{Command, Crew, Gate, Listing};
use session_model::Fault;
use std::str;
use std::sync::Wait;
use std::thread::Threads;

impl BegunProgram {
    /// Adds a line, where there is room for it. A fault adds nothing.
    fn add(&mut self, bytes: &[u8]) -> Result<(), LineError>
        requires plain { list_all is_plain bytes.now ≡ true }
        ensures text { HasText self.old → OnOk result (HasText self.new) }
        ensures answer { (s : ScriptState) → Executes (one_line bytes.now (open_program self.old) s) result [] []
            (inside s (ProgramBlock (open_program self.new))) }
    {
        if self.lines >= MOST_PROGRAM_LINES {
            return Err(LineError::Fault(LineFault::Command(Fault::TooMany)));
        }
        self.text.extend_from_slice(bytes)?;
        self.text.push(b'\n')?;
        self.lines += 1;
        Ok(())
    }

    /// The lines so far.
    fn text(&self) -> &str
        requires { HasText self.now }
        ensures { result.now ≡ self.now.text.items }
    {
        let Ok(text) = str::from_utf8(&self.text) else {
            unreachable!()
        };
        text
    }
}

impl Script {
    /// Begins a program in assembler text.
    pub(crate) fn begin_program(&mut self, name: &[u8], record_length: u64) -> Result<(), LineError>
        ensures executed { Executes (begin_program name.now record_length self.old) result [] [] self.new }
        ensures line { self.new.line ≡ self.old.line }
    {
        if let Some(fault) = self.session.program_fault(name, record_length) {
            return Err(LineError::Fault(LineFault::Command(fault)));
        }
        let name = Vec::from_slice(self.alloc, name)?;
        self.block = Some(Block::Program(BegunProgram {
            line: self.line,
            name,
            record_length: record_length as u16,
            lines: 0,
            text: Vec::new(self.alloc),
        }));
        Ok(())
    }

    /// Executes a line inside a program: the end, or one more line for the assembler.
    pub(crate) fn execute_in_program<Ga: Gate, R: Threads + Wait>(
        &mut self,
        crew: &Crew<'_, R, Ga>,
        text: &mut Vec<u8>,
        mut begun: BegunProgram,
        bytes: &[u8],
    ) -> Result<Option<Listing>, LineError>
        requires program { HasText begun }
        requires plain { list_all is_plain bytes.now ≡ true }
        requires closed { self.old.block ≡ None }
        ensures executed { Prints (inside_program bytes.now
            (open_program begun) self.old) result text.old.items text.new.items self.new }
        ensures line { self.new.line ≡ self.old.line }
    {
        if is_end(bytes) {
            return self.end_program(crew, text, &begun);
        }
        match begun.add(bytes) {
            Ok(()) => {
                self.block = Some(Block::Program(begun));
                Ok(None)
            }
            Err(error) => Err(error),
        }
    }

    /// Assembles a program whose end has come, and loads its code.
    fn end_program<Ga: Gate, R: Threads + Wait>(
        &mut self,
        crew: &Crew<'_, R, Ga>,
        text: &mut Vec<u8>,
        begun: &BegunProgram,
    ) -> Result<Option<Listing>, LineError>
        requires program { HasText begun.now }
        requires closed { self.old.block ≡ None }
        ensures executed { Prints (end_program (open_program begun.now) self.old) result text.old.items
            text.new.items self.new }
        ensures line { self.new.line ≡ self.old.line }
    {
        match assemble(self.alloc, begun.text()) {
            Ok(code) => self.perform(
                crew,
                text,
                Command::LoadProgram {
                    name: &begun.name,
                    record_length: u64::from(begun.record_length),
                    code,
                },
            ),
            Err(error) => whole(put_unassembled(text, &begun.name, error)),
        }
    }
}

/// Says why a program's text means no code. Lack of memory is no answer of a script.
fn put_unassembled(text: &mut Vec<u8>, name: &[u8], error: AssembleError) -> Result<(), LineError>
    ensures said { OnOk result (text.new.items ≡ text.old.items ++ assembler_text name.now error) }
    ensures cause { OnOk result (error.cause ≢ OutOfMemory) }
    ensures error { IfErr result (λ e. e ≡ LineError.OutOfMemory) }
{
    if matches!(error.cause, TextCause::OutOfMemory) {
        return Err(LineError::OutOfMemory);
    }
    put_assembler(text, name, error)?;
    Ok(())
}

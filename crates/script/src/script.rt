//! The state of a script, and its lines one by one.

ghost use Rattle.std.specs.Prelude.{◌≡◌, ◌≤◌, ◌++◌, OnOk, IfOk, IfErr, true, false, length};
ghost use Rattle.std.specs.List.{list_all};
ghost use Rattle.script_model.specs.Lexing.{is_plain};
ghost use Rattle.script_model.specs.State.{new_script};
ghost use Rattle.script_model.specs.declared.limits.TheConstants.{MOST_LINE_BYTES};
ghost use Rattle.script_model.specs.Execution.{execution, block_execution};
ghost use Rattle.script_model.specs.Script.{end_meaning, next_line};
ghost use Rattle.script_model.specs.Texts.{fault_text};
ghost use Rattle.script.specs.Executes.{Prints, Steps, AsksStore, OnStore};
ghost use Rattle.script.specs.Kept.{HasBatch};

use crate::block::Block;
use crate::error::{LineError, ScriptError};
use crate::reading::{batch_line, is_plain_line, statement_line};
use crate::texts::put_fault;
use script_model::{Ending, LineFault, MOST_LINE_BYTES};
use session::{Crew, Gate, Listing, Session};
use std::alloc::Global;
use std::marker::Model;
use std::sync::Wait;
use std::thread::Threads;

/// How far a script is: its session, the block that is open, and the number of the next line. Whoever
/// makes one has to close it.
pub struct Script {
    pub(crate) alloc: Global,
    pub(crate) session: Session,
    pub(crate) block: Option<Block>,
    pub(crate) line: u64,
}

impl Model for Script {
    ghost use Rattle.script_model.specs.State.{Script as ScriptState};
    ghost use Rattle.script.specs.Kept.{script_of, IsBlock};

    ghost Value = { ScriptState };

    ghost view = { λ s. script_of s.session s.block s.line };

    ghost invariant = { λ s. IsBlock s.block };
}

/// What came of a line.
#[derive(Drop)]
pub enum Step {
    /// It was executed.
    Executed,
    /// It was executed, and the lines of these edges are still to be written.
    Lists(Listing),
    /// It has a fault, which is written. The script has ended.
    Stopped,
}

impl Script {
    /// The script before its first line. It takes no memory.
    pub fn new(alloc: Global) -> Script
        ensures { result ≡ new_script }
    {
        Script {
            alloc,
            session: Session::new(alloc),
            block: None,
            line: 1,
        }
    }

    /// Executes the next line, its end left out, by the crew's workers. What it says, or its fault, goes to the end of
    /// the text: the same for each number of workers, gate and order in which threads run. The lines of the edges that
    /// it lists, of which there may be many, are left to the caller. `Store` comes only at a line whose answer the store
    /// alone gives: the end of a batch, a pin, a home or a rebase.
    pub fn execute<Ga: Gate, R: Threads + Wait>(
        &mut self,
        crew: &Crew<'_, R, Ga>,
        text: &mut Vec<u8>,
        bytes: &[u8],
    ) -> Result<Step, ScriptError>
        ensures steps { Steps result bytes.now self.old self.new text.old.items text.new.items }
        ensures store { OnStore result (AsksStore (execution self.old bytes.now)) }
    {
        match self.execute_line(crew, text, bytes) {
            Ok(None) => {
                self.count_line()?;
                Ok(Step::Executed)
            }
            Ok(Some(listing)) => {
                self.count_line()?;
                Ok(Step::Lists(listing))
            }
            Err(LineError::Fault(fault)) => {
                put_fault(text, fault, self.line)?;
                Ok(Step::Stopped)
            }
            Err(LineError::OutOfMemory) => Err(ScriptError::OutOfMemory),
            Err(LineError::WorkerRefused) => Err(ScriptError::WorkerRefused),
            Err(LineError::Store) => Err(ScriptError::Store),
        }
    }

    /// Writes that the next line is too long. The script has ended.
    pub fn stop_at_long_line(&self, text: &mut Vec<u8>) -> Result<(), ScriptError>
        ensures text { OnOk result (text.new.items ≡ text.old.items ++ fault_text LineFault.LongLine self.now.line) }
        ensures error { IfErr result (λ e. e ≡ ScriptError.OutOfMemory) }
    {
        put_fault(text, LineFault::LongLine, self.line)?;
        Ok(())
    }

    /// Ends a script whose lines are all executed: a block that is still open is a fault of the line that
    /// opened it.
    pub fn finish(&self, text: &mut Vec<u8>) -> Result<Ending, ScriptError>
        ensures text { OnOk result (text.new.items ≡ text.old.items ++ (end_meaning self.now.block).text) }
        ensures ending { IfOk result (λ e. e ≡ (end_meaning self.now.block).ending) }
        ensures error { IfErr result (λ e. e ≡ ScriptError.OutOfMemory) }
    {
        match &self.block {
            None => Ok(Ending::Complete),
            Some(block) => {
                put_fault(text, LineFault::OpenBlock, block.first_line())?;
                Ok(Ending::Fault)
            }
        }
    }

    /// Drops all that the script has made.
    pub fn close<R: Wait>(self, rt: &R) {
        let Script {
            alloc: _,
            session,
            block: _,
            line: _,
        } = self;
        session.close(rt);
    }

    /// Moves on to the next line.
    fn count_line(&mut self) -> Result<(), ScriptError>
        ensures next { OnOk result (self.new ≡ next_line self.old.line self.old) }
        ensures error { IfErr result (λ e. e ≡ ScriptError.OutOfMemory) }
    {
        // No machine reads 2^64 lines.
        let Some(next) = self.line.checked_add(1) else {
            return Err(ScriptError::OutOfMemory);
        };
        self.line = next;
        Ok(())
    }

    /// Whether a batch is open.
    fn has_batch(&self) -> bool
        ensures yes { result ≡ true → HasBatch self.now }
        ensures no { result ≡ false → ¬ HasBatch self.now }
    {
        match &self.block {
            Some(Block::Batch(_)) => true,
            Some(Block::Program(_)) => false,
            None => false,
        }
    }

    /// Executes a line whose bytes are allowed, inside a program or outside blocks.
    fn execute_outside_batch<Ga: Gate, R: Threads + Wait>(
        &mut self,
        crew: &Crew<'_, R, Ga>,
        text: &mut Vec<u8>,
        bytes: &[u8],
    ) -> Result<Option<Listing>, LineError>
        requires plain { list_all is_plain bytes.now ≡ true }
        requires no_batch { ¬ HasBatch self.old }
        ensures executed { Prints (block_execution self.old.block bytes.now self.old) result text.old.items
            text.new.items self.new }
        ensures line { self.new.line ≡ self.old.line }
    {
        match self.block.take() {
            None => {
                let said = statement_line(self.alloc, bytes)?;
                self.execute_outside(crew, text, said)
            }
            Some(Block::Program(begun)) => self.execute_in_program(crew, text, begun, bytes),
            Some(Block::Batch(_)) => unreachable!(),
        }
    }

    /// Executes a line where a batch is open, which stays where it is, as it may have many lines. Its bytes are not tested: what a
    /// line of a batch says has allowed bytes alone, and a line that says nothing has the same fault.
    fn execute_batch_line<Ga: Gate, R: Threads + Wait>(
        &mut self,
        crew: &Crew<'_, R, Ga>,
        text: &mut Vec<u8>,
        bytes: &[u8],
    ) -> Result<Option<Listing>, LineError>
        requires open { HasBatch self.old }
        requires short { length bytes.now ≤ MOST_LINE_BYTES }
        ensures executed { Prints (execution self.old bytes.now) result text.old.items text.new.items self.new }
        ensures line { self.new.line ≡ self.old.line }
    {
        self.execute_in_batch(crew, text, batch_line(bytes))
    }

    /// Executes the line of the present number.
    #[tactic(auto, unfolding(script_model::specs::Execution::execution))]
    fn execute_line<Ga: Gate, R: Threads + Wait>(
        &mut self,
        crew: &Crew<'_, R, Ga>,
        text: &mut Vec<u8>,
        bytes: &[u8],
    ) -> Result<Option<Listing>, LineError>
        ensures executed { Prints (execution self.old bytes.now) result text.old.items text.new.items self.new }
        ensures line { self.new.line ≡ self.old.line }
    {
        if bytes.len() > MOST_LINE_BYTES {
            return Err(LineError::Fault(LineFault::LongLine));
        }
        if self.has_batch() {
            return self.execute_batch_line(crew, text, bytes);
        }
        if !is_plain_line(bytes) {
            return Err(LineError::Fault(LineFault::Words));
        }
        self.execute_outside_batch(crew, text, bytes)
    }
}

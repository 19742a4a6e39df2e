//! Batches, line by line.

ghost use Rattle.std.specs.Prelude.{◌≡◌, Some, [], option_map, List, ℕ};
ghost use Rattle.script_model.specs.Parsing.{batch_line, EndBatch};
ghost use Rattle.script_model.specs.State.{Script as ScriptState, OpenBatch, BatchBlock};
ghost use Rattle.script_model.specs.Execution.{begin_batch, batch_step, one_edit, inside_batch, inside};
ghost use Rattle.session_model.specs.Faults.{HasFewVertices};
ghost use Rattle.session.specs.Edits.{edit_of};
ghost use Rattle.script.specs.Said.{said_batch_line, cut_batch_line};
ghost use Rattle.script.specs.Kept.{open_batch, HasBatch};
ghost use Rattle.script.specs.Executes.{Executes, Prints};

use crate::block::{BegunBatch, Block};
use crate::error::LineError;
use crate::reading::BatchLine;
use crate::script::Script;
use crate::statements::whole;
use script_model::LineFault;
use session::{Command, Crew, Gate, GivenEdit, Listing, Session};
use session_model::Fault;
use std::sync::Wait;
use std::thread::Threads;

impl BegunBatch {
    /// Adds an edit to a session's batch. A fault adds nothing.
    fn add(&mut self, session: &Session, edit: GivenEdit) -> Result<(), LineError>
        ensures answer { (s : ScriptState) → s.session ≡ session.now
            → Executes (one_edit (edit_of edit) (open_batch self.old) s) result [] []
            (inside s (BatchBlock (open_batch self.new))) }
        ensures few { HasFewVertices session.now }
    {
        session.add_edit(&mut self.edits, edit)?;
        Ok(())
    }
}

impl Script {
    /// Begins a batch of a feed.
    pub(crate) fn begin_batch(&mut self, feed: u8) -> Result<(), LineError>
        ensures executed { Executes (begin_batch feed self.old) result [] [] self.new }
        ensures line { self.new.line ≡ self.old.line }
    {
        if self.session.vertex_count().is_none() {
            return Err(LineError::Fault(LineFault::Command(Fault::Order)));
        }
        self.block = Some(Block::Batch(BegunBatch {
            line: self.line,
            feed,
            edits: Vec::new(self.alloc),
        }));
        Ok(())
    }

    /// Adds an edit to the batch that is open. It is changed where it stands.
    fn add_edit(&mut self, edit: GivenEdit) -> Result<(), LineError>
        requires { HasBatch self.old }
        ensures executed { (begun : OpenBatch) → self.old.block ≡ Some (BatchBlock begun)
            → Executes (one_edit (edit_of edit) begun self.old) result [] [] self.new }
        ensures line { self.new.line ≡ self.old.line }
        ensures few { HasFewVertices self.old.session }
    {
        match &mut self.block {
            Some(Block::Batch(begun)) => begun.add(&self.session, edit),
            _ => unreachable!(),
        }
    }

    /// Publishes the batch that is open, whose end has come.
    fn end_batch<Ga: Gate, R: Threads + Wait>(
        &mut self,
        crew: &Crew<'_, R, Ga>,
        text: &mut Vec<u8>,
    ) -> Result<Option<Listing>, LineError>
        requires { HasBatch self.old }
        ensures executed { (begun : OpenBatch) → self.old.block ≡ Some (BatchBlock begun)
            → Prints (batch_step EndBatch begun self.old) result text.old.items text.new.items self.new }
        ensures line { self.new.line ≡ self.old.line }
    {
        match self.block.take() {
            Some(
                Block::Batch(
                    BegunBatch {
                        line: _,
                        feed,
                        edits,
                    },
                ),
            ) => self.perform(crew, text, Command::PublishBatch { feed, edits }),
            _ => unreachable!(),
        }
    }

    /// Executes a line inside a batch, where it says something.
    pub(crate) fn execute_in_batch<Ga: Gate, R: Threads + Wait>(
        &mut self,
        crew: &Crew<'_, R, Ga>,
        text: &mut Vec<u8>,
        said: Option<BatchLine>,
    ) -> Result<Option<Listing>, LineError>
        requires { HasBatch self.old }
        ensures executed { (words : List (List ℕ)) (begun : OpenBatch) → self.old.block ≡ Some (BatchBlock begun)
            → option_map said_batch_line said ≡ option_map cut_batch_line (batch_line words)
            → Prints (inside_batch words begun self.old) result text.old.items text.new.items self.new }
        ensures line { self.new.line ≡ self.old.line }
    {
        match said {
            None => Err(LineError::Fault(LineFault::Words)),
            Some(BatchLine::Insert { source, target }) => {
                whole(self.add_edit(GivenEdit::Insert(source, target)))
            }
            Some(BatchLine::Remove { source, target }) => {
                whole(self.add_edit(GivenEdit::Remove(source, target)))
            }
            Some(BatchLine::End) => self.end_batch(crew, text),
        }
    }
}

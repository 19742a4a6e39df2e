//! The state of a session, and its commands one by one.

ghost use Rattle.std.specs.Prelude.{◌≡◌, ◌⊎◌, IfErr};
ghost use Rattle.session_model.specs.Session.{new_session};
ghost use Rattle.session_model.specs.Responses.{response};
ghost use Rattle.session.specs.Kept.{command_of};
ghost use Rattle.session.specs.Performs.{HandsInBatch, Performs};

use crate::answer::Answer;
use crate::command::Command;
use crate::error::CommandError;
use crate::handles::Handles;
use crate::kept::{NamedColumn, NamedPin, NamedProgram};
use crate::lists::Names;
use crate::runs::Run;
use std::alloc::Global;
use std::marker::Model;
use std::sync::Wait;
use std::thread::Threads;
use workers::{Crew, Gate};

/// What commands have made so far. Whoever makes one has to close it.
pub struct Session {
    pub(crate) alloc: Global,
    pub(crate) store: Option<Handles>,
    pub(crate) programs: Vec<NamedProgram>,
    pub(crate) pins: Vec<NamedPin>,
    pub(crate) columns: Vec<NamedColumn>,
}

impl Model for Session {
    ghost use Rattle.session_model.specs.Session.{Session as SessionState};
    ghost use Rattle.session.specs.Kept.{session_of};

    ghost Value = { SessionState };

    ghost view = { λ s. session_of s.store s.programs.items s.pins.items s.columns.items };
}

impl Session {
    /// The session without a graph, a program, a pin or a column. It takes no memory.
    pub fn new(alloc: Global) -> Session
        ensures { result ≡ new_session }
    {
        Session {
            alloc,
            store: None,
            programs: Vec::new(alloc),
            pins: Vec::new(alloc),
            columns: Vec::new(alloc),
        }
    }

    /// Performs a command: the answer is what the definition `response` says, or the fault is, for every number of
    /// workers, their gate and the order in which threads run. Work is in pieces: a batch's are the ranges of 256 vertices
    /// that it edits, a run's are 64 places each of its frontier, and a command with columns has one for each worker that it
    /// has enough for. Besides it answers `OutOfMemory` if memory was refused, `WorkerRefused` if a thread for a batch or a
    /// run could not be started, of which one worker needs none, and `Store`
    /// if its store does not answer as it should, which comes only of a command that is answered by a publication, a pin,
    /// a home or a rebase. After a fault the session is as it was, and after each error of a command that hands in no batch.
    /// So it is after `OutOfMemory` and `WorkerRefused` of a batch, but that its store may hold one where it held none: a batch
    /// handed in again publishes that one, and is answered `Store` if it is another. After `Store` of a batch none is held,
    /// and there is no use of the session but `close`.
    pub fn perform<'a, 'b, Ga: Gate, R: Threads + Wait>(
        &mut self,
        crew: &Crew<'_, R, Ga>,
        command: Command<'a, 'b>,
    ) -> Result<Answer<'a>, CommandError>
        ensures performed { Performs (response (command_of command.entry) self.old) result self.old self.new }
        ensures kept { IfErr result (λ _. HandsInBatch (command_of command.entry) ⊎ (self.new ≡ self.old)) }
    {
        match command {
            Command::MakeGraph { vertices } => self.make_graph(crew.rt, vertices),
            Command::PublishBatch { feed, edits } => self.publish_batch(crew, feed, edits),
            Command::LoadProgram {
                name,
                record_length,
                code,
            } => self.load_program(name, record_length, code),
            Command::LoadImage { name, bytes } => self.load_image(name, &bytes),
            Command::TakePin { name } => self.take_pin(name),
            Command::RunProgram {
                program,
                pin,
                reduction,
                argument,
                frontier,
            } => self.run_program(
                crew,
                &Run {
                    program,
                    pin,
                    reduction,
                    argument,
                    frontier,
                },
            ),
            Command::ReportHome { vertex } => self.report_home(vertex),
            Command::Rebase => self.rebase(crew.rt),
            Command::ListEdges {
                program,
                pin,
                argument,
            } => self.list_program(&Names { program, pin }, argument),
            Command::SetColumn {
                name,
                first,
                numbers,
            } => self.set_column(name, first, numbers),
            Command::ShowValues { name, frontier } => self.show_values(name, frontier),
            Command::PullRows { asked } => self.pull_rows(crew, &asked),
            Command::WriteColumn { way, asked, into } => self.write_column(crew, way, &asked, into),
        }
    }

    /// Ends the session: its graph, programs, pins and columns are dropped.
    pub fn close<R: Wait>(self, rt: &R) {
        let Session {
            alloc: _,
            store,
            programs: _,
            pins: _,
            columns: _,
        } = self;
        if let Some(store) = store {
            store.close(rt);
        }
    }
}

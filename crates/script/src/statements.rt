//! Lines outside blocks.

ghost use Rattle.std.specs.Prelude.{◌≡◌, None};
ghost use Rattle.session_model.specs.Responses.{response};
ghost use Rattle.session_model.specs.Faults.{HasFewVertices};
ghost use Rattle.session.specs.Kept.{asked_of, command_of};
ghost use Rattle.script_model.specs.Execution.{execution_of, statement_execution};
ghost use Rattle.script.specs.Said.{said_asked, said_statement, said_line};
ghost use Rattle.script.specs.Executes.{Prints, whole_of, line_of};

use crate::answers::put_answer;
use crate::error::LineError;
use crate::reading::{Asking, Line, Statement};
use crate::script::Script;
use script_model::LineFault;
use session::{Asked, Command, Crew, Gate, Listing};
use std::sync::Wait;
use std::thread::Threads;

/// What came of a line all of whose text is written.
pub(crate) fn whole(done: Result<(), LineError>) -> Result<Option<Listing>, LineError>
    ensures { result ≡ whole_of done }
{
    match done {
        Ok(()) => Ok(None),
        Err(error) => Err(error),
    }
}

/// Lends a command what a line asks for.
fn asked<'a, 'b>(asking: &'a Asking<'b>) -> Asked<'a, 'b>
    ensures { asked_of result ≡ said_asked asking.now }
{
    Asked {
        program: asking.program,
        pin: asking.pin,
        reduction: asking.reduction,
        argument: &asking.argument,
        columns: &asking.columns,
        frontier: &asking.frontier,
    }
}

impl Script {
    /// Has the session perform a command, and writes its answer, but for the lines of the edges that it lists.
    pub(crate) fn perform<Ga: Gate, R: Threads + Wait>(
        &mut self,
        crew: &Crew<'_, R, Ga>,
        text: &mut Vec<u8>,
        command: Command,
    ) -> Result<Option<Listing>, LineError>
        requires { self.old.block ≡ None }
        ensures executed { Prints (execution_of (response
            (command_of command.entry) self.old.session) self.old) result text.old.items text.new.items self.new }
        ensures line { self.new.line ≡ self.old.line }
    {
        let answer = self.session.perform(crew, command)?;
        put_answer(text, &answer)?;
        Ok(answer.into_listing())
    }

    /// Executes a statement.
    fn execute_statement<Ga: Gate, R: Threads + Wait>(
        &mut self,
        crew: &Crew<'_, R, Ga>,
        text: &mut Vec<u8>,
        statement: Statement,
    ) -> Result<Option<Listing>, LineError>
        requires { self.old.block ≡ None }
        ensures executed { Prints (statement_execution
            (said_statement statement.entry) self.old) result text.old.items text.new.items self.new }
        ensures line { self.new.line ≡ self.old.line }
    {
        match statement {
            Statement::Graph { vertices } => self.perform(
                crew,
                text,
                Command::MakeGraph { vertices },
            ),
            Statement::Batch { feed } => whole(self.begin_batch(feed)),
            Statement::Code {
                name,
                record_length,
                code,
            } => self.perform(
                crew,
                text,
                Command::LoadProgram {
                    name,
                    record_length,
                    code,
                },
            ),
            Statement::Image { name, bytes } => self.perform(
                crew,
                text,
                Command::LoadImage { name, bytes },
            ),
            Statement::Program {
                name,
                record_length,
            } => whole(self.begin_program(name, record_length)),
            Statement::Pin { name } => self.perform(crew, text, Command::TakePin { name }),
            Statement::Run {
                program,
                pin,
                reduction,
                argument,
                frontier,
            } => self.perform(
                crew,
                text,
                Command::RunProgram {
                    program,
                    pin,
                    reduction,
                    argument: &argument,
                    frontier: &frontier,
                },
            ),
            Statement::Home { vertex } => self.perform(crew, text, Command::ReportHome { vertex }),
            Statement::Rebase => self.perform(crew, text, Command::Rebase),
            Statement::List {
                program,
                pin,
                argument,
            } => self.perform(
                crew,
                text,
                Command::ListEdges {
                    program,
                    pin,
                    argument,
                },
            ),
            Statement::Column {
                name,
                first,
                numbers,
            } => self.perform(
                crew,
                text,
                Command::SetColumn {
                    name,
                    first,
                    numbers: &numbers,
                },
            ),
            Statement::Values { name, frontier } => self.perform(
                crew,
                text,
                Command::ShowValues {
                    name,
                    frontier: &frontier,
                },
            ),
            Statement::PullRows { asking } => self.perform(
                crew,
                text,
                Command::PullRows {
                    asked: asked(&asking),
                },
            ),
            Statement::WriteColumn { way, asking, into } => self.perform(
                crew,
                text,
                Command::WriteColumn {
                    way,
                    asked: asked(&asking),
                    into,
                },
            ),
        }
    }

    /// Executes what a line outside blocks says.
    pub(crate) fn execute_outside<Ga: Gate, R: Threads + Wait>(
        &mut self,
        crew: &Crew<'_, R, Ga>,
        text: &mut Vec<u8>,
        said: Line,
    ) -> Result<Option<Listing>, LineError>
        requires { self.old.block ≡ None }
        ensures executed { Prints (line_of (said_line said.entry) self.old) result text.old.items text.new.items
            self.new }
        ensures line { self.new.line ≡ self.old.line }
        ensures few { HasFewVertices self.old.session }
    {
        // The number of vertices shows that numbers cut at 2^64 - 1 fail the same tests.
        let _few = self.session.vertex_count();
        match said {
            Line::Skipped => Ok(None),
            Line::Unknown => Err(LineError::Fault(LineFault::Words)),
            Line::Statement(statement) => self.execute_statement(crew, text, statement),
        }
    }
}

//! The pulls, pushes and maps of a session: a program run for the edges or the vertices of a pin with columns.

ghost use Rattle.std.specs.Prelude.{◌≡◌, ◌+◌, ◌*◌, ◌≤◌, ◌↔◌, [], length, map, None, IfOk, IfNone, IfSome, IfErr, true};
ghost use Rattle.past_model.specs.declared.limits.TheConstants.{MOST_VERTICES};
ghost use Rattle.past_model.specs.Past.{graph_of};
ghost use Rattle.map_model.specs.declared.limits.TheConstants.{COLUMN_BYTES, EDGE_BYTES, MOST_COLUMNS};
ghost use Rattle.session_model.specs.Session.{Session as SessionState};
ghost use Rattle.session_model.specs.declared.way.Way.TheVariants.{Push};
ghost use Rattle.session_model.specs.Faults.{is_frontier as is_frontier_of, lent_fault as lent_fault_of};
ghost use Rattle.session_model.specs.Responses.{Answers, unless_fault, rows_answer, pull_response, write_response, frontier_of, lent_response, placed};
ghost use Rattle.edge_fold.specs.Inputs.{inputs_of};
ghost use Rattle.edge_map.specs.declared.job.Wanted.TheVariants.{Rows};
ghost use Rattle.edge_map.specs.Jobs.{begins_with, IsDone};
ghost use Rattle.session.specs.Kept.{asked_of, each_now, kept_column, program_of, past_of};
ghost use Rattle.session.specs.Lending.{IsLeft, IsLent, lends, after_job, wanted_of, Writes, WritesInto, into_list};
ghost use Rattle.session.specs.Performs.{Performs};

use crate::answer::Answer;
use crate::command::Asked;
use crate::error::CommandError;
use crate::frontier::{are_below, ascends};
use crate::kept::{NamedColumn, find_column, find_columns, find_pin, find_program, store_column};
use crate::runs::vertices_of;
use crate::session::Session;
use edge_fold::columns_fit;
use edge_map::{Job, JobOutcome, Mapped, Request, Wanted, do_job};
use map_model::{COLUMN_BYTES, EDGE_BYTES, count_changed};
use session_model::{Fault, Way};
use std::alloc::{AllocError, Global};
use std::sync::Arc;
use std::thread::Threads;
use store::{Pin, Version};
use verifier::Verified;
use workers::{Crew, Gate};

/// What a command that lends columns names.
#[derive(Drop)]
pub(crate) struct Lent<'a> {
    pub program: &'a Verified,
    pub pin: &'a Pin,
    pub columns: Vec<&'a [u64]>,
}

/// A column that a command writes, and how.
#[derive(Clone, Copy)]
pub(crate) struct Into<'a> {
    pub way: Way,
    pub numbers: &'a [u64],
}

/// What is written in place of a column.
#[derive(Drop)]
pub(crate) struct Written {
    /// How many edges, or vertices, the program was run for.
    pub count: u64,
    pub total: u64,
    /// At how many vertices there is another number.
    pub changed: u64,
    pub numbers: Vec<u64>,
}

/// What a command that lends columns names, where all are there.
fn lent_of<'a>(
    alloc: Global,
    asked: &Asked<'_, '_>,
    columns: &'a [NamedColumn],
    program: Option<&'a Arc<Verified>>,
    pin: Option<&'a Pin>,
) -> Result<Lent<'a>, CommandError>
    ensures { IsLent (lends (asked_of asked.now) (program_of program.entry) (past_of pin.entry)
        (map kept_column columns.now)) result }
{
    let (Some(program), Some(pin)) = (program, pin) else {
        return Err(CommandError::Fault(Fault::Name));
    };
    let Some(columns) = find_columns(alloc, columns, asked.columns)? else {
        return Err(CommandError::Fault(Fault::Name));
    };
    Ok(Lent {
        program,
        pin,
        columns,
    })
}

/// Whether an argument and columns fill a program's record.
fn fills_record(asked: &Asked<'_, '_>, lent: &Lent<'_>) -> bool
    ensures { (result ≡ true) ↔ (length asked.now.argument.now + EDGE_BYTES + COLUMN_BYTES * length
        lent.now.columns.items
        ≡ lent.now.program.now.record_length) }
{
    let columns = lent.columns.len().saturating_mul(COLUMN_BYTES);
    let length = asked
        .argument
        .len()
        .saturating_add(EDGE_BYTES)
        .saturating_add(columns);
    length == usize::from(lent.program.image().record_length())
}

/// What is wrong with the argument, the frontier and the columns of a command, and with the column that it writes, if it does.
fn lent_fault(asked: &Asked<'_, '_>, lent: &Lent<'_>, into: Option<&[u64]>) -> Option<Fault>
    ensures fault { result ≡ lent_fault_of (asked_of asked.now) lent.now.program.now lent.now.pin.now.past.vertex_count
        (each_now lent.now.columns.items) (into_list into.entry) }
    ensures fits { IfNone result (length asked.now.argument.now + EDGE_BYTES + COLUMN_BYTES * length
        lent.now.columns.items
        ≡ lent.now.program.now.record_length) }
    ensures few { IfNone result (length lent.now.columns.items ≤ MOST_COLUMNS) }
    ensures frontier { IfNone result (is_frontier_of lent.now.pin.now.past.vertex_count asked.now.frontier.now ≡ true) }
    ensures long { IfNone result (IfSome into.entry (λ numbers. length numbers.now
        ≡ lent.now.pin.now.past.vertex_count)) }
{
    if !fills_record(asked, lent) {
        return Some(Fault::ArgumentLength);
    }
    let vertices = lent.pin.version().vertex_count();
    if !ascends(asked.frontier) || !are_below(asked.frontier, vertices) {
        return Some(Fault::Frontier);
    }
    if !columns_fit(&lent.columns, vertices) {
        return Some(Fault::TooMany);
    }
    match into {
        Some(numbers) if numbers.len() != vertices as usize => Some(Fault::TooMany),
        _ => None,
    }
}

/// The vertices of a frontier, or all.
fn frontier_for(alloc: Global, version: &Version, frontier: &[u64]) -> Result<Vec<u32>, AllocError>
    requires { is_frontier_of version.now.vertex_count frontier.now ≡ true }
    ensures all { IfOk result (λ all. all.items ≡ frontier_of frontier.now (graph_of version.now)) }
    ensures few { IfOk result (λ all. length all.items ≤ MOST_VERTICES) }
{
    let all = vertices_of(alloc, version, frontier, version.vertex_count())?;
    Ok(all)
}

/// Gives each vertex of a frontier its value, as far as there are values.
fn place(frontier: &[u32], values: &[u64], numbers: &mut [u64])
    ensures placed { numbers.new ≡ placed frontier.now values.now numbers.old }
{
    for at in 0..frontier.len().min(values.len()) {
        let vertex = frontier[at] as usize;
        if vertex < numbers.len() {
            numbers[vertex] = values[at];
        }
    }
}

/// What is wanted of the runs of a command that writes a column.
fn wanted_by(way: Way) -> Wanted
    ensures { result ≡ wanted_of way }
{
    match way {
        Way::Pull => Wanted::Values,
        Way::Push => Wanted::Pushed,
        Way::Each => Wanted::Own,
    }
}

/// The numbers of a column after those that a job has found.
fn numbers_after(
    alloc: Global,
    into: &Into<'_>,
    frontier: &[u32],
    found: Vec<u64>,
) -> Result<Vec<u64>, AllocError>
    requires { into.now.way ≡ Push → length found.items ≡ length into.now.numbers.now }
    ensures after { IfOk result (λ after. after.items
        ≡ after_job into.now.way frontier.now found.items into.now.numbers.now) }
    ensures long { IfOk result (λ after. length after.items ≡ length into.now.numbers.now) }
{
    match into.way {
        Way::Push => Ok(found),
        Way::Pull | Way::Each => {
            let mut after = Vec::from_slice(alloc, into.numbers)?;
            place(frontier, &found, &mut after);
            Ok(after)
        }
    }
}

/// What a command writes in place of a column.
fn mapped_numbers<Ga: Gate, R: Threads>(
    crew: &Crew<'_, R, Ga>,
    alloc: Global,
    into: &Into<'_>,
    mapped: &Mapped<'_>,
    request: &Request<'_>,
) -> Result<Written, AllocError>
    requires few { length request.now.frontier.now ≤ MOST_VERTICES }
    requires long { length into.now.numbers.now ≡ (graph_of mapped.now.version.now).vertex_count }
    ensures { IfOk result (λ w. let m = mapped.now in let r = request.now in IsLeft into.now.way m.program.now
        (graph_of m.version.now) r.reduction (inputs_of m) r.frontier.now into.now.numbers.now w) }
{
    let job = Job {
        mapped: *mapped,
        request: *request,
        wanted: wanted_by(into.way),
        before: Some(into.numbers),
    };
    let found = do_job(crew, alloc, &job)?;
    let JobOutcome {
        count,
        total,
        numbers,
        rows: _,
    } = found;
    let numbers = numbers_after(alloc, into, request.frontier, numbers)?;
    Ok(Written {
        count,
        total,
        changed: count_changed(into.numbers, &numbers) as u64,
        numbers,
    })
}

/// What a command writes in place of a column, or its fault.
fn write_numbers<Ga: Gate, R: Threads>(
    crew: &Crew<'_, R, Ga>,
    alloc: Global,
    asked: &Asked<'_, '_>,
    lent: &Lent<'_>,
    into: &Into<'_>,
) -> Result<Written, CommandError>
    ensures { Writes into.now.way (asked_of asked.now) lent.now.program.now lent.now.pin.now.past
        (each_now lent.now.columns.items) into.now.numbers.now result }
{
    if let Some(fault) = lent_fault(asked, lent, Some(into.numbers)) {
        return Err(CommandError::Fault(fault));
    }
    let version = lent.pin.version();
    let frontier = frontier_for(alloc, version, asked.frontier)?;
    let mapped = Mapped {
        version,
        program: lent.program,
        argument: asked.argument,
        columns: &lent.columns,
    };
    let request = Request {
        frontier: &frontier,
        reduction: asked.reduction,
    };
    let written = mapped_numbers(crew, alloc, into, &mapped, &request)?;
    Ok(written)
}

/// The rows of a map over edges, of vertices with a neighbour.
fn mapped_rows<'l, Ga: Gate, R: Threads>(
    crew: &Crew<'_, R, Ga>,
    alloc: Global,
    mapped: &Mapped<'l>,
    request: &Request<'l>,
) -> Result<JobOutcome, AllocError>
    requires few { length request.now.frontier.now ≤ MOST_VERTICES }
    ensures { IfOk result (λ out. let m = mapped.now in let r = request.now in let g = graph_of m.version.now in
        IsDone Rows m.program.now g r.reduction (inputs_of m) r.frontier.now
        (begins_with r.reduction g.vertex_count None) out) }
{
    let job = Job {
        mapped: *mapped,
        request: *request,
        wanted: Wanted::Rows,
        before: None,
    };
    do_job(crew, alloc, &job)
}

/// The rows of a pull.
fn pulled_rows<'a, Ga: Gate, R: Threads>(
    crew: &Crew<'_, R, Ga>,
    alloc: Global,
    asked: &Asked<'a, '_>,
    lent: &Lent<'_>,
) -> Result<Answer<'a>, CommandError>
    ensures { (s : SessionState) → let p = lent.now.program.now in let past = lent.now.pin.now.past in
        let columns = each_now lent.now.columns.items in Performs
        (unless_fault (lent_fault_of (asked_of asked.now) p past.vertex_count columns [])
        (Answers (rows_answer (asked_of asked.now) p (graph_of past) columns) s)) result s s }
{
    if let Some(fault) = lent_fault(asked, lent, None) {
        return Err(CommandError::Fault(fault));
    }
    let version = lent.pin.version();
    let frontier = frontier_for(alloc, version, asked.frontier)?;
    let mapped = Mapped {
        version,
        program: lent.program,
        argument: asked.argument,
        columns: &lent.columns,
    };
    let request = Request {
        frontier: &frontier,
        reduction: asked.reduction,
    };
    let out = mapped_rows(crew, alloc, &mapped, &request)?;
    Ok(Answer::RowsPulled {
        program: asked.program,
        pin: asked.pin,
        edges: out.count,
        total: out.total,
        rows: out.rows,
    })
}

impl Session {
    /// Finds what a command that lends columns names.
    fn find_lent(&self, asked: &Asked<'_, '_>) -> Result<Lent<'_>, CommandError>
        ensures { IsLent (lent_response (asked_of asked.now) self.now) result }
    {
        let Some(store) = &self.store else {
            return Err(CommandError::Fault(Fault::Order));
        };
        if !are_below(asked.frontier, store.vertex_count()) {
            return Err(CommandError::Fault(Fault::Range));
        }
        let program = find_program(&self.programs, asked.program);
        let pin = find_pin(&self.pins, asked.pin);
        lent_of(self.alloc, asked, &self.columns, program, pin)
    }

    /// Maps a program over the edges of a pin with columns.
    pub(crate) fn pull_rows<'a, Ga: Gate, R: Threads>(
        &self,
        crew: &Crew<'_, R, Ga>,
        asked: &Asked<'a, '_>,
    ) -> Result<Answer<'a>, CommandError>
        ensures { Performs (pull_response (asked_of asked.now) self.now) result self.now self.now }
    {
        match self.find_lent(asked) {
            Ok(lent) => pulled_rows(crew, self.alloc, asked, &lent),
            Err(error) => Err(error),
        }
    }

    /// What a command writes in place of a column of the session.
    fn write<Ga: Gate, R: Threads>(
        &self,
        crew: &Crew<'_, R, Ga>,
        way: Way,
        asked: &Asked<'_, '_>,
        into: &[u8],
    ) -> Result<Written, CommandError>
        ensures { WritesInto way (asked_of asked.now) into.now self.now result }
    {
        match self.find_lent(asked) {
            Ok(lent) => {
                let Some(numbers) = find_column(&self.columns, into) else {
                    return Err(CommandError::Fault(Fault::Name));
                };
                write_numbers(crew, self.alloc, asked, &lent, &Into { way, numbers })
            }
            Err(error) => Err(error),
        }
    }

    /// Maps a program over the edges or the vertices of a pin with columns, and writes a column.
    pub(crate) fn write_column<'a, Ga: Gate, R: Threads>(
        &mut self,
        crew: &Crew<'_, R, Ga>,
        way: Way,
        asked: &Asked<'a, '_>,
        into: &[u8],
    ) -> Result<Answer<'a>, CommandError>
        ensures performed { Performs (write_response way
            (asked_of asked.now) into.now self.old) result self.old self.new }
        ensures kept { IfErr result (λ _. self.new ≡ self.old) }
    {
        let written = self.write(crew, way, asked, into)?;
        let Written {
            count,
            total,
            changed,
            numbers,
        } = written;
        store_column(self.alloc, &mut self.columns, into, numbers)?;
        Ok(Answer::ColumnWritten {
            way,
            program: asked.program,
            pin: asked.pin,
            count,
            total,
            changed,
        })
    }
}

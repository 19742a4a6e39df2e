//! The runs of a session: a program mapped over the edges of a pin.

ghost use Rattle.std.specs.Prelude.{◌≡◌, nat_lt, true, IfOk};
ghost use Rattle.std.specs.List.{list_all};
ghost use Rattle.past_model.specs.Past.{graph_of};
ghost use Rattle.session_model.specs.Session.{Session as SessionState};
ghost use Rattle.session_model.specs.Responses.{run_response, found_response, map_response, frontier_of};
ghost use Rattle.session.specs.Kept.{program_of, past_of};
ghost use Rattle.session.specs.Performs.{Performs};
ghost use Rattle.session.specs.Runs.{IsAnswerOf};

use crate::answer::Answer;
use crate::error::CommandError;
use crate::frontier::{all_vertices, are_below, narrowed};
use crate::kept::{find_pin, find_program};
use crate::session::Session;
use edge_map::{MapError, MapOutcome, MapRequest, map_sources};
use map_model::Reduction;
use session_model::Fault;
use std::alloc::{AllocError, Global};
use std::sync::{Arc, Wait};
use std::thread::Threads;
use store::{Pin, Version};
use verifier::Verified;
use workers::{Crew, Gate};

/// What a run is asked for: a program and a pin by their names, how numbers are reduced, the argument's
/// bytes, and the frontier (none for all vertices).
#[derive(Clone, Copy)]
pub(crate) struct Run<'a> {
    pub program: &'a [u8],
    pub pin: &'a [u8],
    pub reduction: Reduction,
    pub argument: &'a [u8],
    pub frontier: &'a [u64],
}

/// A run whose frontier lies below a number of vertices.
#[derive(Clone, Copy)]
struct RunWithin<'a> {
    run: Run<'a>,
    vertices: u32,
    ghost below: { list_all (λ v. nat_lt v vertices) run.frontier.now ≡ true },
}

/// The vertices whose edges are mapped: those of the frontier, which lie below a number of vertices, or
/// all of the version.
pub(crate) fn vertices_of(
    alloc: Global,
    version: &Version,
    frontier: &[u64],
    vertices: u32,
) -> Result<Vec<u32>, AllocError>
    requires { list_all (λ v. nat_lt v vertices) frontier.now ≡ true }
    ensures { IfOk result (λ all. all.items ≡ frontier_of frontier.now (graph_of version.now)) }
{
    if frontier.is_empty() {
        let all = all_vertices(alloc, version.vertex_count())?;
        return Ok(all);
    }
    let narrow = narrowed(alloc, frontier, vertices)?;
    Ok(narrow)
}

/// The answer to a run, from what its map gave.
fn answer_to<'a>(
    run: &Run<'a>,
    told: Result<MapOutcome, MapError>,
) -> Result<Answer<'a>, CommandError>
    ensures { IsAnswerOf run.now.program.now run.now.pin.now told result }
{
    let outcome = told?;
    Ok(Answer::EdgesMapped {
        program: run.program,
        pin: run.pin,
        edges: outcome.edges,
        total: outcome.total,
        rows: outcome.rows,
    })
}

/// Maps a program over the edges of a pin.
fn map_pin<'a, Ga: Gate, R: Threads + Wait>(
    crew: &Crew<'_, R, Ga>,
    alloc: Global,
    within: &RunWithin<'a>,
    program: &Verified,
    pin: &Pin,
) -> Result<Answer<'a>, CommandError>
    ensures { (s : SessionState) → let run = within.now.run in Performs (map_response run.program.now run.pin.now
        run.reduction run.argument.now run.frontier.now program.now pin.now.past s) result s s }
{
    let run = within.run;
    let frontier = vertices_of(alloc, pin.version(), run.frontier, within.vertices)?;
    let request = MapRequest {
        program,
        argument: run.argument,
        frontier: &frontier,
        reduction: run.reduction,
    };
    let told = map_sources(crew, alloc, pin, &request);
    answer_to(&run, told)
}

/// Maps a program over the edges of a pin, where both are there.
fn map_found<'a, Ga: Gate, R: Threads + Wait>(
    crew: &Crew<'_, R, Ga>,
    alloc: Global,
    within: &RunWithin<'a>,
    program: Option<&Arc<Verified>>,
    pin: Option<&Pin>,
) -> Result<Answer<'a>, CommandError>
    ensures { (s : SessionState) → let run = within.now.run in Performs (found_response run.program.now run.pin.now
        run.reduction run.argument.now run.frontier.now (program_of program.entry) (past_of pin.entry) s) result s s }
{
    let (Some(program), Some(pin)) = (program, pin) else {
        return Err(CommandError::Fault(Fault::Name));
    };
    map_pin(crew, alloc, within, program, pin)
}

impl Session {
    /// Maps a program over the edges of a pin.
    pub(crate) fn run_program<'a, Ga: Gate, R: Threads + Wait>(
        &self,
        crew: &Crew<'_, R, Ga>,
        run: &Run<'a>,
    ) -> Result<Answer<'a>, CommandError>
        ensures { Performs (run_response run.now.program.now run.now.pin.now run.now.reduction run.now.argument.now
            run.now.frontier.now self.now) result self.now self.now }
    {
        let Some(store) = &self.store else {
            return Err(CommandError::Fault(Fault::Order));
        };
        let vertices = store.vertex_count();
        if !are_below(run.frontier, vertices) {
            return Err(CommandError::Fault(Fault::Range));
        }
        let program = find_program(&self.programs, run.program);
        let pin = find_pin(&self.pins, run.pin);
        let within = RunWithin {
            run: *run,
            vertices,
        };
        map_found(crew, self.alloc, &within, program, pin)
    }
}

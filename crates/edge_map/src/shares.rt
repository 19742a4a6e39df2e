//! Runs over a frontier that workers share: each has a part of the frontier.
ghost use Rattle.std.specs.Prelude.{◌≡◌, ◌<◌, ◌≤◌, ◌^◌, ℕ, length, take, drop, slice_index, None, IfOk, OnOk, IfSome};
ghost use Rattle.past_model.specs.declared.limits.TheConstants.{MOST_VERTICES};
ghost use Rattle.past_model.specs.Past.{graph_of};
ghost use Rattle.workers.specs.declared.limits.TheConstants.{MOST_WORKERS};
ghost use Rattle.edge_map.specs.declared.job.Wanted.TheVariants.{Pushed};
ghost use Rattle.edge_map.specs.Jobs.{begins_with, first_of, parts_together, IsJobDone, IsPartDone, IsPartOf};

use crate::alone::do_alone;
use crate::job::{Job, JobOutcome, Wanted};
use crate::limits::{MOST_WEIGHED, PIECE_VERTICES, PUSHES_OF_AN_EDGE};
use edge_fold::{Request, combine, laws, nothing};
use map_model::join_values;
use std::alloc::{AllocError, Global};
use std::thread;
use std::thread::Threads;
use workers::{Crew, Gate, Workers};

/// How much there is to do at a place of the frontier, roughly.
fn weight_at(job: &Job<'_>, at: usize) -> u64 {
    let Some(vertex) = job.request.frontier.get(at) else {
        return 0;
    };
    match job.wanted {
        Wanted::Own => 1,
        _ => u64::from(job.mapped.version.degree(u64::from(*vertex))) + 1,
    }
}

/// How far the places lie apart that are weighed, so that they are few.
fn weighed_step(job: &Job<'_>) -> usize
    ensures { 0 < result }
{
    job.request.frontier.len() / MOST_WEIGHED + 1
}

/// How much there is to do at the places that are weighed.
fn weigh(job: &Job<'_>) -> u64 {
    let step = weighed_step(job);
    let mut weight = 0u64;
    let mut at = 0usize;
    'places: while at < job.request.frontier.len() {
        weight = weight.saturating_add(weight_at(job, at));
        at = at.saturating_add(step);
    }
    weight
}

/// Where a frontier is cut, so that there is about as much to do after it as each of so many other workers has.
fn cut(job: &Job<'_>, others: u8) -> usize
    ensures { result ≤ length job.now.request.frontier.now }
{
    let step = weighed_step(job);
    let share = weigh(job) / (u64::from(others) + 1);
    let mut at = job.request.frontier.len();
    let mut weight = 0u64;
    'places: while at > 0 && weight < share {
        at = at.saturating_sub(step);
        weight = weight.saturating_add(weight_at(job, at));
    }
    at
}

/// How many workers there is enough to do for, besides the caller: a piece of the frontier for each. A worker of a push has a number
/// for each vertex of the graph, so it has to have edges enough.
fn other_workers(job: &Job<'_>, workers: Workers) -> u8
    ensures { result < MOST_WORKERS }
{
    let pieces = job.request.frontier.len().div_ceil(PIECE_VERTICES) as u64;
    let enough = match job.wanted {
        Wanted::Pushed => {
            let edges = weigh(job).saturating_mul(weighed_step(job) as u64);
            let vertices = u64::from(job.mapped.version.vertex_count());
            edges.saturating_mul(PUSHES_OF_AN_EDGE) / vertices.max(1)
        }
        _ => pieces,
    };
    let others = pieces.min(enough).saturating_sub(1);
    u64::from(workers.count() - 1).min(others) as u8
}

/// Each element is a number of 64 bits. It does nothing: only its contract is used.
fn are_numbers(numbers: &[u64])
    ensures { (v : ℕ) → slice_index numbers.now v < 2 ^ 64 }
{}

/// So it is of what a push begins with. It does nothing: only its contract is used.
fn begins_with_numbers(job: &Job<'_>)
    ensures small { (v : ℕ) → slice_index (first_of job.now) v < 2 ^ 64 }
{
    match job.before {
        Some(numbers) => are_numbers(numbers),
        None => {
            let _none = nothing(job.request.reduction);
        }
    }
}

/// Puts the numbers of a late part behind those of an early one, or into them.
fn put_together(job: &Job<'_>, early: &mut Vec<u64>, late: &mut Vec<u64>) -> Result<(), AllocError>
    requires alike { job.now.wanted ≡ Pushed → length early.old.items ≡ length late.old.items }
    ensures { OnOk result (early.new.items
        ≡ parts_together job.now.wanted job.now.request.reduction early.old.items late.old.items) }
{
    match job.wanted {
        Wanted::Pushed => {
            join_values(job.request.reduction, early, late);
            Ok(())
        }
        _ => early.append(late),
    }
}

/// What two parts of a job's frontier give together.
fn together(
    job: &Job<'_>,
    at: usize,
    early: JobOutcome,
    late: JobOutcome,
) -> Result<JobOutcome, AllocError>
    requires inside { at ≤ length job.now.request.frontier.now }
    requires early { IsPartDone job.now (take at job.now.request.frontier.now) (first_of job.now) early }
    requires late { let j = job.now in IsPartDone j (drop at j.request.frontier.now)
        (begins_with j.request.reduction (graph_of j.mapped.version.now).vertex_count None) late }
    ensures { IfOk result (λ out. IsJobDone job.now out) }
{
    laws::every_edge_has_its_number(&job.mapped);
    begins_with_numbers(job);
    let _vertices = job.mapped.version.vertex_count();
    let mut early = early;
    let mut late = late;
    put_together(job, &mut early.numbers, &mut late.numbers)?;
    early.rows.append(&mut late.rows)?;
    early.count += late.count;
    early.total = combine(job.request.reduction, early.total, late.total);
    Ok(early)
}

impl<'a> Job<'a> {
    /// The same for a part of its frontier, of which a push begins with these numbers.
    fn part(&self, frontier: &'a [u32], before: Option<&'a [u64]>) -> Job<'a>
        requires few { length frontier.now ≤ MOST_VERTICES }
        requires long { IfSome before (λ numbers. length numbers.now
            ≡ (graph_of self.now.mapped.version.now).vertex_count) }
        ensures { IsPartOf self.now frontier.now before.entry result }
    {
        Job {
            mapped: self.mapped,
            request: Request {
                frontier,
                reduction: self.request.reduction,
            },
            wanted: self.wanted,
            before,
        }
    }
}

/// A part of a job, as a piece of the gate's.
fn do_part<Ga: Gate>(
    alloc: Global,
    gate: &Ga,
    piece: u8,
    job: &Job<'_>,
) -> Result<JobOutcome, AllocError>
    ensures { IfOk result (λ out. IsJobDone job.now out) }
{
    gate.enter(u32::from(piece));
    let out = do_alone(alloc, job);
    gate.leave(u32::from(piece));
    out
}

/// A job, by the caller and so many others. Where no thread can be started, the caller does that part too.
#[cycle(shared)]
fn do_by<Ga: Gate, R: Threads>(
    crew: &Crew<'_, R, Ga>,
    alloc: Global,
    job: &Job<'_>,
    others: u8,
) -> Result<JobOutcome, AllocError>
    ensures { IfOk result (λ out. IsJobDone job.now out) }
{
    let gate = crew.gate;
    if others == 0 {
        return do_part(alloc, gate, 0, job);
    }
    let at = cut(job, others);
    let (first, last) = job.request.frontier.split_at(at);
    let early = job.part(first, job.before);
    let late = job.part(last, None);
    let by_other = move || -> Result<JobOutcome, AllocError>
        ensures { IfOk result (λ out. IsJobDone late.entry out) }
    { do_part(alloc, gate, others, &late) };
    let by_rest = move || -> Result<JobOutcome, AllocError>
        requires { 0 < others }
        ensures { IfOk result (λ out. IsJobDone early.entry out) }
    { do_by(crew, alloc, &early, others - 1) };
    let (late, early) = thread::join(crew.rt, by_other, by_rest);
    together(job, at, early?, late?)
}

/// Runs a verified program over a frontier, on the edges of its vertices or on each vertex as a pair with itself, and gives what is
/// wanted of the numbers. The answer does not depend on the workers, the gate or the order in which threads run. The caller's thread
/// is a worker; the others are threads that this call starts, and that end before it does. Where one cannot be started the caller does
/// its part, too. Each worker has a part of the frontier, with about as many edges as any other, and this is one piece of the gate's:
/// the caller's is piece 0. For a push each worker takes memory for a number for each vertex of the graph. An error means that memory
/// was refused.
pub fn do_job<Ga: Gate, R: Threads>(
    crew: &Crew<'_, R, Ga>,
    alloc: Global,
    job: &Job<'_>,
) -> Result<JobOutcome, AllocError>
    ensures { IfOk result (λ out. IsJobDone job.now out) }
{
    let others = other_workers(job, crew.workers);
    do_by(crew, alloc, job, others)
}

//! A job by one worker.
ghost use Rattle.std.specs.Prelude.{◌≡◌, ◌≤◌, ℕ, List, length, IfOk};
ghost use Rattle.past_model.specs.declared.limits.TheConstants.{MOST_VERTICES};
ghost use Rattle.past_model.specs.Past.{graph_of};
ghost use Rattle.map_model.specs.EdgeMap.{reduction_of_numbers};
ghost use Rattle.map_model.specs.Parts.{pair_numbers};
ghost use Rattle.verifier.specs.Walks.{longest};
ghost use Rattle.edge_fold.specs.Inputs.{inputs_of};
ghost use Rattle.edge_fold.specs.Kept.{IsFor};
ghost use Rattle.edge_map.specs.declared.job.Wanted.TheVariants as wanted;
ghost use Rattle.edge_map.specs.Jobs.{begins_with, IsDone, IsJobDone};

use crate::job::{Job, JobOutcome, Wanted};
use edge_fold::{
    Mapped, Memory, Pairs, Progress, Reduction, Request, Rows, combine, map_frontier, map_whole,
    nothing, number_pairs, push_whole,
};
use std::alloc::{AllocError, Global};

/// The rows of vertices with a neighbour.
fn find_rows(
    alloc: Global,
    memory: &mut Memory,
    mapped: &Mapped<'_>,
    request: &Request<'_>,
) -> Result<JobOutcome, AllocError>
    requires few { length request.now.frontier.now ≤ MOST_VERTICES }
    requires memory { IsFor mapped.now.program.now memory.old }
    ensures { (first : List ℕ) → IfOk result (λ out. let m = mapped.now in let r = request.now in
        IsDone wanted.Rows m.program.now (graph_of m.version.now) r.reduction (inputs_of m) r.frontier.now first out) }
{
    let out = map_frontier(alloc, memory, mapped, request, Rows::OfSources)?;
    Ok(JobOutcome {
        count: out.edges,
        total: out.total,
        numbers: Vec::new(alloc),
        rows: out.rows,
    })
}

/// What the numbers of each vertex's edges reduce to.
fn find_values(
    alloc: Global,
    memory: &mut Memory,
    mapped: &Mapped<'_>,
    request: &Request<'_>,
) -> Result<JobOutcome, AllocError>
    requires few { length request.now.frontier.now ≤ MOST_VERTICES }
    requires memory { IsFor mapped.now.program.now memory.old }
    ensures { (first : List ℕ) → IfOk result (λ out. let m = mapped.now in let r = request.now in
        IsDone wanted.Values m.program.now (graph_of m.version.now) r.reduction
        (inputs_of m) r.frontier.now first out) }
{
    let mut numbers = vec![in alloc; 0u64; request.frontier.len()]?;
    let end = map_whole(memory, mapped, request, &mut numbers);
    Ok(JobOutcome {
        count: end.edges,
        total: end.total,
        numbers,
        rows: Vec::new(alloc),
    })
}

/// What a push begins with.
fn first_numbers(alloc: Global, job: &Job<'_>) -> Result<Vec<u64>, AllocError>
    ensures { IfOk result (λ first. first.items
        ≡ begins_with job.now.request.reduction (graph_of job.now.mapped.version.now).vertex_count job.now.before) }
{
    match job.before {
        Some(numbers) => Vec::from_slice(alloc, numbers),
        None => {
            let vertices = job.mapped.version.vertex_count() as usize;
            let numbers = vec![in alloc; nothing(job.request.reduction); vertices]?;
            Ok(numbers)
        }
    }
}

/// The numbers of edges, each reduced into that of its target.
fn find_pushed(alloc: Global, memory: &mut Memory, job: &Job<'_>) -> Result<JobOutcome, AllocError>
    requires memory { IsFor job.now.mapped.program.now memory.old }
    ensures { IfOk result (λ out. let m = job.now.mapped in let r = job.now.request in
        IsDone wanted.Pushed m.program.now (graph_of m.version.now) r.reduction (inputs_of m) r.frontier.now
        (begins_with r.reduction (graph_of m.version.now).vertex_count job.now.before) out) }
{
    let mut numbers = first_numbers(alloc, job)?;
    let end = push_whole(memory, &job.mapped, &job.request, &mut numbers);
    Ok(JobOutcome {
        count: end.edges,
        total: end.total,
        numbers,
        rows: Vec::new(alloc),
    })
}

/// What numbers reduce to.
fn reduced(reduction: Reduction, numbers: &[u64]) -> u64
    ensures { result ≡ reduction_of_numbers reduction numbers.now }
{
    let mut so_far = nothing(reduction);
    'numbers: for at in 0..numbers.len() {
        so_far = combine(reduction, so_far, numbers[at]);
    }
    so_far
}

/// The number of each vertex of a frontier. One call does all: no frontier costs as much as the budget.
fn own_numbers(
    alloc: Global,
    memory: &mut Memory,
    mapped: &Mapped<'_>,
    frontier: &[u32],
) -> Result<Vec<u64>, AllocError>
    requires few { length frontier.now ≤ MOST_VERTICES }
    requires memory { IsFor mapped.now.program.now memory.old }
    ensures numbers { IfOk result (λ own. let m = mapped.now in let p = m.program.now in own.items
        ≡ pair_numbers p (longest p) (graph_of m.version.now) (inputs_of m) frontier.now frontier.now) }
{
    let _bound = mapped.program.bound();
    let mut numbers = vec![in alloc; 0u64; frontier.len()]?;
    let pairs = Pairs {
        sources: frontier,
        targets: frontier,
    };
    let mut progress = Progress {
        budget: u64::MAX,
        edges: 0,
        total: 0,
        vertex: 0,
        place: 0,
    };
    number_pairs(memory, mapped, &pairs, &mut progress, &mut numbers);
    Ok(numbers)
}

/// The number of each vertex, as a pair with itself.
fn find_own(
    alloc: Global,
    memory: &mut Memory,
    mapped: &Mapped<'_>,
    request: &Request<'_>,
) -> Result<JobOutcome, AllocError>
    requires few { length request.now.frontier.now ≤ MOST_VERTICES }
    requires memory { IsFor mapped.now.program.now memory.old }
    ensures { (first : List ℕ) → IfOk result (λ out. let m = mapped.now in let r = request.now in
        IsDone wanted.Own m.program.now (graph_of m.version.now) r.reduction (inputs_of m) r.frontier.now first out) }
{
    let numbers = own_numbers(alloc, memory, mapped, request.frontier)?;
    Ok(JobOutcome {
        count: numbers.len() as u64,
        total: reduced(request.reduction, &numbers),
        numbers,
        rows: Vec::new(alloc),
    })
}

/// A job, by the caller's thread.
pub(crate) fn do_alone(alloc: Global, job: &Job<'_>) -> Result<JobOutcome, AllocError>
    ensures { IfOk result (λ out. IsJobDone job.now out) }
{
    let mut memory = Memory::for_program(job.mapped.program);
    match job.wanted {
        Wanted::Rows => find_rows(alloc, &mut memory, &job.mapped, &job.request),
        Wanted::Values => find_values(alloc, &mut memory, &job.mapped, &job.request),
        Wanted::Pushed => find_pushed(alloc, &mut memory, job),
        Wanted::Own => find_own(alloc, &mut memory, &job.mapped, &job.request),
    }
}

//! Programs over edges.
ghost use Rattle.std.specs.Prelude.{◌≡◌};
ghost use Rattle.past_model.specs.Past.{graph_of};
ghost use Rattle.embedding.specs.Arrays.{AreNumbers};
ghost use Rattle.embedding.specs.Holding.{OnBoth};
ghost use Rattle.embedding.specs.Parts.{IsRunSome, AreNumbersSome, ArePairs};
ghost use Rattle.embedding.specs.Runs.{IsRun};

use crate::columns::{edgebpf_numbers_of, edgebpf_pairs_of, edgebpf_pull, edgebpf_pull_some};
use embedding::{EMPTY, Handle, Progress, Totals, number_held};
use std::alloc::Global;

/// Runs a program on each edge of the vertices of a frontier, and reduces its numbers: 0 is the sum, 1 the least and 2 the
/// greatest.
#[unsafe(no_mangle)]
pub extern "C" fn edgebpf_run(
    alloc: Global,
    version: &mut Handle,
    program: &mut Handle,
    argument: &[u8],
    frontier: &[u32],
    reduction: u32,
    values: &mut [u64],
    totals: &mut Totals,
) -> u32
    ensures version { version.new.held ≡ version.old.held }
    ensures program { program.new.held ≡ program.old.held }
    ensures answered { OnBoth version.old.held program.old.held result ((values.new ≡ values.old)
        × (totals.new ≡ totals.old))
        (λ past p. IsRun (graph_of past) p argument.now frontier.now reduction result values.old totals.old values.new
        totals.new) }
{
    edgebpf_pull(
        alloc,
        version,
        program,
        argument,
        &[],
        frontier,
        reduction,
        values,
        totals,
    )
}

/// Goes on with a run over a frontier, as far as the budget goes: one edge or one vertex at least.
#[unsafe(no_mangle)]
pub extern "C" fn edgebpf_run_some(
    alloc: Global,
    version: &mut Handle,
    program: &mut Handle,
    argument: &[u8],
    frontier: &[u32],
    reduction: u32,
    at: &mut Progress,
    values: &mut [u64],
) -> u32
    ensures version { version.new.held ≡ version.old.held }
    ensures program { program.new.held ≡ program.old.held }
    ensures answered { OnBoth version.old.held program.old.held result ((values.new ≡ values.old) × (at.new ≡ at.old))
        (λ past p. IsRunSome (graph_of past) p argument.now frontier.now reduction result at.old at.new values.old
        values.new) }
{
    edgebpf_pull_some(
        alloc,
        version,
        program,
        argument,
        &[],
        frontier,
        reduction,
        at,
        values,
    )
}

/// The number of each edge, sources ascending, and targets ascending for each.
#[unsafe(no_mangle)]
pub extern "C" fn edgebpf_numbers(
    alloc: Global,
    version: &mut Handle,
    program: &mut Handle,
    argument: &[u8],
    numbers: &mut [u64],
) -> u32
    ensures version { version.new.held ≡ version.old.held }
    ensures program { program.new.held ≡ program.old.held }
    ensures answered { OnBoth version.old.held program.old.held result (numbers.new ≡ numbers.old)
        (λ past p. AreNumbers (graph_of past) p argument.now result numbers.old numbers.new) }
{
    let Some(graph) = version.take(alloc) else {
        return EMPTY;
    };
    let Some(mut code) = program.take(alloc) else {
        version.put(graph);
        return EMPTY;
    };
    let answer = number_held(&graph, &mut code, argument, numbers);
    version.put(graph);
    program.put(code);
    answer
}

/// The numbers of the next edges of a frontier's vertices, as far as there is room and the budget goes.
#[unsafe(no_mangle)]
pub extern "C" fn edgebpf_numbers_some(
    alloc: Global,
    version: &mut Handle,
    program: &mut Handle,
    argument: &[u8],
    frontier: &[u32],
    at: &mut Progress,
    numbers: &mut [u64],
    written: &mut usize,
) -> u32
    ensures version { version.new.held ≡ version.old.held }
    ensures program { program.new.held ≡ program.old.held }
    ensures answered { OnBoth version.old.held program.old.held result
        ((numbers.new ≡ numbers.old) × (written.new ≡ written.old) × (at.new ≡ at.old))
        (λ past p. AreNumbersSome (graph_of past) p argument.now frontier.now result at.old at.new numbers.old
        numbers.new written.old written.new) }
{
    edgebpf_numbers_of(
        alloc,
        version,
        program,
        argument,
        &[],
        frontier,
        at,
        numbers,
        written,
    )
}

/// The numbers of the next pairs of vertices, which need not be edges, as far as the budget goes: one at least.
#[unsafe(no_mangle)]
pub extern "C" fn edgebpf_pairs(
    alloc: Global,
    version: &mut Handle,
    program: &mut Handle,
    argument: &[u8],
    sources: &[u32],
    targets: &[u32],
    at: &mut Progress,
    numbers: &mut [u64],
) -> u32
    ensures version { version.new.held ≡ version.old.held }
    ensures program { program.new.held ≡ program.old.held }
    ensures answered { OnBoth version.old.held program.old.held result ((numbers.new ≡ numbers.old) × (at.new ≡ at.old))
        (λ past p. ArePairs (graph_of past) p argument.now sources.now targets.now result at.old at.new numbers.old
        numbers.new) }
{
    edgebpf_pairs_of(
        alloc,
        version,
        program,
        argument,
        &[],
        sources,
        targets,
        at,
        numbers,
    )
}

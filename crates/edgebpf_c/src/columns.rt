//! Programs over edges and pairs whose records have the numbers of columns for their ends.
ghost use Rattle.std.specs.Prelude.{◌≡◌};
ghost use Rattle.past_model.specs.Past.{graph_of};
ghost use Rattle.edge_fold.specs.Inputs.{inputs_from};
ghost use Rattle.embedding.specs.Holding.{OnBoth};
ghost use Rattle.embedding.specs.Parts.{AreNumbersWith, ArePairsWith, IsPullSome};
ghost use Rattle.embedding.specs.Runs.{IsPull};

use embedding::{
    EMPTY, Handle, Lent, NumbersAsked, PairsAsked, Progress, RunAsked, Totals, numbers_some_held,
    pairs_held, run_held, run_some_held,
};
use std::alloc::Global;

/// Runs a program on each edge of the vertices of a frontier, on records that have the numbers of columns for the edge's ends after
/// the argument, and reduces its numbers: 0 is the sum, 1 the least and 2 the greatest.
#[unsafe(no_mangle)]
pub extern "C" fn edgebpf_pull(
    alloc: Global,
    version: &mut Handle,
    program: &mut Handle,
    argument: &[u8],
    columns: &[&[u64]],
    frontier: &[u32],
    reduction: u32,
    values: &mut [u64],
    totals: &mut Totals,
) -> u32
    ensures version { version.new.held ≡ version.old.held }
    ensures program { program.new.held ≡ program.old.held }
    ensures answered { OnBoth version.old.held program.old.held result ((values.new ≡ values.old)
        × (totals.new ≡ totals.old))
        (λ past p. IsPull (graph_of past) p (inputs_from argument.now columns.now) frontier.now reduction result
        values.old totals.old values.new totals.new) }
{
    let Some(graph) = version.take(alloc) else {
        return EMPTY;
    };
    let Some(mut code) = program.take(alloc) else {
        version.put(graph);
        return EMPTY;
    };
    let asked = RunAsked {
        lent: Lent { argument, columns },
        frontier,
        reduction,
    };
    let answer = run_held(&graph, &mut code, &asked, values, totals);
    version.put(graph);
    program.put(code);
    answer
}

/// Goes on with a run over a frontier whose records have the numbers of columns, as far as the budget goes: one edge or one vertex at
/// least.
#[unsafe(no_mangle)]
pub extern "C" fn edgebpf_pull_some(
    alloc: Global,
    version: &mut Handle,
    program: &mut Handle,
    argument: &[u8],
    columns: &[&[u64]],
    frontier: &[u32],
    reduction: u32,
    at: &mut Progress,
    values: &mut [u64],
) -> u32
    ensures version { version.new.held ≡ version.old.held }
    ensures program { program.new.held ≡ program.old.held }
    ensures answered { OnBoth version.old.held program.old.held result ((values.new ≡ values.old) × (at.new ≡ at.old))
        (λ past p. IsPullSome (graph_of past) p (inputs_from argument.now columns.now) frontier.now reduction result
        at.old at.new values.old values.new) }
{
    let Some(graph) = version.take(alloc) else {
        return EMPTY;
    };
    let Some(mut code) = program.take(alloc) else {
        version.put(graph);
        return EMPTY;
    };
    let asked = RunAsked {
        lent: Lent { argument, columns },
        frontier,
        reduction,
    };
    let answer = run_some_held(&graph, &mut code, &asked, at, values);
    version.put(graph);
    program.put(code);
    answer
}

/// The numbers of the next edges of a frontier's vertices, as far as there is room and the budget goes, on records that have the numbers
/// of columns.
#[unsafe(no_mangle)]
pub extern "C" fn edgebpf_numbers_of(
    alloc: Global,
    version: &mut Handle,
    program: &mut Handle,
    argument: &[u8],
    columns: &[&[u64]],
    frontier: &[u32],
    at: &mut Progress,
    numbers: &mut [u64],
    written: &mut usize,
) -> u32
    ensures version { version.new.held ≡ version.old.held }
    ensures program { program.new.held ≡ program.old.held }
    ensures answered { OnBoth version.old.held program.old.held result
        ((numbers.new ≡ numbers.old) × (written.new ≡ written.old) × (at.new ≡ at.old))
        (λ past p. AreNumbersWith (graph_of past) p
        (inputs_from argument.now columns.now) frontier.now result at.old at.new numbers.old numbers.new written.old
        written.new) }
{
    let Some(graph) = version.take(alloc) else {
        return EMPTY;
    };
    let Some(mut code) = program.take(alloc) else {
        version.put(graph);
        return EMPTY;
    };
    let asked = NumbersAsked {
        lent: Lent { argument, columns },
        frontier,
    };
    let answer = numbers_some_held(&graph, &mut code, &asked, at, numbers, written);
    version.put(graph);
    program.put(code);
    answer
}

/// The numbers of the next pairs of vertices, which need not be edges, as far as the budget goes, on records that have the numbers of
/// columns: one pair at least.
#[unsafe(no_mangle)]
pub extern "C" fn edgebpf_pairs_of(
    alloc: Global,
    version: &mut Handle,
    program: &mut Handle,
    argument: &[u8],
    columns: &[&[u64]],
    sources: &[u32],
    targets: &[u32],
    at: &mut Progress,
    numbers: &mut [u64],
) -> u32
    ensures version { version.new.held ≡ version.old.held }
    ensures program { program.new.held ≡ program.old.held }
    ensures answered { OnBoth version.old.held program.old.held result ((numbers.new ≡ numbers.old) × (at.new ≡ at.old))
        (λ past p. ArePairsWith (graph_of past) p (inputs_from argument.now columns.now) sources.now targets.now result
        at.old at.new numbers.old numbers.new) }
{
    let Some(graph) = version.take(alloc) else {
        return EMPTY;
    };
    let Some(mut code) = program.take(alloc) else {
        version.put(graph);
        return EMPTY;
    };
    let asked = PairsAsked {
        lent: Lent { argument, columns },
        sources,
        targets,
    };
    let answer = pairs_held(&graph, &mut code, &asked, at, numbers);
    version.put(graph);
    program.put(code);
    answer
}

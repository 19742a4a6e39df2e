//! Programs over edges whose numbers go to the places of their targets.
ghost use Rattle.std.specs.Prelude.{◌≡◌};
ghost use Rattle.past_model.specs.Past.{graph_of};
ghost use Rattle.edge_fold.specs.Inputs.{inputs_from};
ghost use Rattle.embedding.specs.Holding.{OnBoth};
ghost use Rattle.embedding.specs.Pushing.{IsPush, IsPushSome};

use embedding::{EMPTY, Handle, Lent, Progress, RunAsked, Totals, push_held, push_some_held};
use std::alloc::Global;

/// Runs a program on each edge of the vertices of a frontier, and reduces the number of each edge into the value of its target: 0 is
/// the sum, 1 the least and 2 the greatest.
#[unsafe(no_mangle)]
pub extern "C" fn edgebpf_push(
    alloc: Global,
    version: &mut Handle,
    program: &mut Handle,
    argument: &[u8],
    columns: &[&[u64]],
    frontier: &[u32],
    reduction: u32,
    values: &mut [u64],
    totals: &mut Totals,
) -> u32
    ensures version { version.new.held ≡ version.old.held }
    ensures program { program.new.held ≡ program.old.held }
    ensures answered { OnBoth version.old.held program.old.held result ((values.new ≡ values.old)
        × (totals.new ≡ totals.old))
        (λ past p. IsPush (graph_of past) p (inputs_from argument.now columns.now) frontier.now reduction result
        values.old totals.old values.new totals.new) }
{
    let Some(graph) = version.take(alloc) else {
        return EMPTY;
    };
    let Some(mut code) = program.take(alloc) else {
        version.put(graph);
        return EMPTY;
    };
    let asked = RunAsked {
        lent: Lent { argument, columns },
        frontier,
        reduction,
    };
    let answer = push_held(&graph, &mut code, &asked, values, totals);
    version.put(graph);
    program.put(code);
    answer
}

/// Goes on with a push over a frontier, as far as the budget goes: one edge or one vertex at least.
#[unsafe(no_mangle)]
pub extern "C" fn edgebpf_push_some(
    alloc: Global,
    version: &mut Handle,
    program: &mut Handle,
    argument: &[u8],
    columns: &[&[u64]],
    frontier: &[u32],
    reduction: u32,
    at: &mut Progress,
    values: &mut [u64],
) -> u32
    ensures version { version.new.held ≡ version.old.held }
    ensures program { program.new.held ≡ program.old.held }
    ensures answered { OnBoth version.old.held program.old.held result ((values.new ≡ values.old) × (at.new ≡ at.old))
        (λ past p. IsPushSome (graph_of past) p (inputs_from argument.now columns.now) frontier.now reduction result
        at.old at.new values.old values.new) }
{
    let Some(graph) = version.take(alloc) else {
        return EMPTY;
    };
    let Some(mut code) = program.take(alloc) else {
        version.put(graph);
        return EMPTY;
    };
    let asked = RunAsked {
        lent: Lent { argument, columns },
        frontier,
        reduction,
    };
    let answer = push_some_held(&graph, &mut code, &asked, at, values);
    version.put(graph);
    program.put(code);
    answer
}

//! Tests of answers that a host computed.
ghost use Rattle.std.specs.Prelude.{◌≡◌};
ghost use Rattle.answers.specs.Components.{AreComponents};
ghost use Rattle.answers.specs.Cores.{AreCores};
ghost use Rattle.answers.specs.Independent.{IsIndependentSet};
ghost use Rattle.answers.specs.Search.{IsSearch};
ghost use Rattle.past_model.specs.Past.{graph_of};
ghost use Rattle.embedding.specs.Answers.{Tells};
ghost use Rattle.embedding.specs.Holding.{OnVersion};
ghost use Rattle.embedding.specs.declared.statuses.TheConstants.{DONE};

use embedding::{
    Components, Cores, EMPTY, Handle, Search, are_components_held, are_cores_held,
    is_independent_set_held, is_search_held,
};
use std::alloc::Global;

/// Whether levels and parents are the answer of a search of a version from a root: 1, or else 0.
#[unsafe(no_mangle)]
pub extern "C" fn edgebpf_is_search(
    alloc: Global,
    version: &mut Handle,
    root: u32,
    levels: &[u32],
    parents: &[u32],
    answer: &mut u32,
) -> u32
    ensures version { version.new.held ≡ version.old.held }
    ensures answered { OnVersion version.old.held result (answer.new ≡ answer.old)
        (λ p. (result ≡ DONE) × Tells answer.new (IsSearch (graph_of p) root levels.now parents.now)) }
{
    let Some(held) = version.take(alloc) else {
        return EMPTY;
    };
    let search = Search {
        root,
        levels,
        parents,
    };
    let status = is_search_held(&held, &search, answer);
    version.put(held);
    status
}

/// Whether labels, parents and steps are an answer of a version's components: 1, or else 0.
#[unsafe(no_mangle)]
pub extern "C" fn edgebpf_are_components(
    alloc: Global,
    version: &mut Handle,
    labels: &[u32],
    parents: &[u32],
    steps: &[u32],
    answer: &mut u32,
) -> u32
    ensures version { version.new.held ≡ version.old.held }
    ensures answered { OnVersion version.old.held result (answer.new ≡ answer.old)
        (λ p. (result ≡ DONE) × Tells answer.new (AreComponents (graph_of p) labels.now parents.now steps.now)) }
{
    let Some(held) = version.take(alloc) else {
        return EMPTY;
    };
    let components = Components {
        labels,
        parents,
        steps,
    };
    let status = are_components_held(&held, &components, answer);
    version.put(held);
    status
}

/// Whether core numbers and places in an order are an answer of a version's cores: 1, or else 0.
#[unsafe(no_mangle)]
pub extern "C" fn edgebpf_are_cores(
    alloc: Global,
    version: &mut Handle,
    numbers: &[u32],
    places: &[u32],
    answer: &mut u32,
) -> u32
    ensures version { version.new.held ≡ version.old.held }
    ensures answered { OnVersion version.old.held result (answer.new ≡ answer.old)
        (λ p. (result ≡ DONE) × Tells answer.new (AreCores (graph_of p) numbers.now places.now)) }
{
    let Some(held) = version.take(alloc) else {
        return EMPTY;
    };
    let status = are_cores_held(&held, &Cores { numbers, places }, answer);
    version.put(held);
    status
}

/// Whether no edge joins two vertices whose marks are not 0, and each other vertex has an edge to one of these: 1, or else 0.
#[unsafe(no_mangle)]
pub extern "C" fn edgebpf_is_independent_set(
    alloc: Global,
    version: &mut Handle,
    marks: &[u8],
    answer: &mut u32,
) -> u32
    ensures version { version.new.held ≡ version.old.held }
    ensures answered { OnVersion version.old.held result (answer.new ≡ answer.old)
        (λ p. (result ≡ DONE) × Tells answer.new (IsIndependentSet (graph_of p) marks.now)) }
{
    let Some(held) = version.take(alloc) else {
        return EMPTY;
    };
    let status = is_independent_set_held(&held, marks, answer);
    version.put(held);
    status
}

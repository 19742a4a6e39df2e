//! Versions, and what is asked of them.
ghost use Rattle.std.specs.Prelude.{◌≡◌, drop};
ghost use Rattle.graph_model.specs.Graph.{degree, neighbours};
ghost use Rattle.graph_model.specs.Views.{is_edge};
ghost use Rattle.past_model.specs.Past.{graph_of};
ghost use Rattle.embedding.specs.declared.statuses.TheConstants.{DONE};
ghost use Rattle.embedding.specs.Arrays.{IsCopy};
ghost use Rattle.embedding.specs.Holding.{OnVersion, HoldsVersion};
ghost use Rattle.embedding.specs.Batches.{IsHandedOut};
ghost use Rattle.embedding.specs.Questions.{info_of, answer_of, IsNeighbour};
ghost use Rattle.embedding.specs.Slices.{AreLent};

use embedding::{
    EMPTY, Handle, Info, Slice, copy_held, degree_held, has_edge_held, info_held, lend_from_held,
    lend_held, neighbour_held, share_version_held,
};
use std::alloc::Global;

/// Another handle of the same version, for another thread.
#[unsafe(no_mangle)]
pub extern "C" fn edgebpf_version_share(
    alloc: Global,
    version: &mut Handle,
    out: &mut Handle,
) -> u32
    ensures kept { version.new.held ≡ version.old.held }
    ensures answered { OnVersion version.old.held result (out.new.held ≡ out.old.held)
        (λ p. IsHandedOut result (HoldsVersion out.new.held p) (out.new.held ≡ out.old.held)) }
{
    match version.take(alloc) {
        None => EMPTY,
        Some(held) => {
            let answer = share_version_held(alloc, &held, out);
            version.put(held);
            answer
        }
    }
}

/// Its number, its edges, its epoch and its vertices.
#[unsafe(no_mangle)]
pub extern "C" fn edgebpf_version_info(alloc: Global, version: &mut Handle, info: &mut Info) -> u32
    ensures kept { version.new.held ≡ version.old.held }
    ensures answered { OnVersion version.old.held result (info.new ≡ info.old)
        (λ p. (result ≡ DONE) × (info.new ≡ info_of p)) }
{
    match version.take(alloc) {
        None => EMPTY,
        Some(held) => {
            let answer = info_held(&held, info);
            version.put(held);
            answer
        }
    }
}

/// How many neighbours a vertex has. A vertex outside has none.
#[unsafe(no_mangle)]
pub extern "C" fn edgebpf_version_degree(
    alloc: Global,
    version: &mut Handle,
    vertex: u32,
    count: &mut u32,
) -> u32
    ensures kept { version.new.held ≡ version.old.held }
    ensures answered { OnVersion version.old.held result (count.new ≡ count.old)
        (λ p. (result ≡ DONE) × (count.new ≡ degree (graph_of p) vertex)) }
{
    match version.take(alloc) {
        None => EMPTY,
        Some(held) => {
            let answer = degree_held(&held, vertex, count);
            version.put(held);
            answer
        }
    }
}

/// Whether there is an edge from a vertex to another: 1, or 0.
#[unsafe(no_mangle)]
pub extern "C" fn edgebpf_version_has_edge(
    alloc: Global,
    version: &mut Handle,
    source: u32,
    target: u32,
    answer: &mut u32,
) -> u32
    ensures kept { version.new.held ≡ version.old.held }
    ensures answered { OnVersion version.old.held result (answer.new ≡ answer.old)
        (λ p. (result ≡ DONE) × (answer.new ≡ answer_of (is_edge (graph_of p) source target))) }
{
    match version.take(alloc) {
        None => EMPTY,
        Some(held) => {
            let status = has_edge_held(&held, source, target, answer);
            version.put(held);
            status
        }
    }
}

/// The neighbour at a place of a vertex's neighbours, from 0.
#[unsafe(no_mangle)]
pub extern "C" fn edgebpf_version_neighbour(
    alloc: Global,
    version: &mut Handle,
    vertex: u32,
    place: u32,
    neighbour: &mut u32,
) -> u32
    ensures kept { version.new.held ≡ version.old.held }
    ensures answered { OnVersion version.old.held result (neighbour.new ≡ neighbour.old)
        (λ p. IsNeighbour (graph_of p) vertex place result neighbour.old neighbour.new) }
{
    match version.take(alloc) {
        None => EMPTY,
        Some(held) => {
            let answer = neighbour_held(&held, vertex, place, neighbour);
            version.put(held);
            answer
        }
    }
}

/// The slices in which a vertex's neighbours lie, as many as there is room for. They stay where they are while any handle of
/// the version is open.
#[unsafe(no_mangle)]
pub extern "C" fn edgebpf_version_lend(
    alloc: Global,
    version: &mut Handle,
    vertex: u32,
    slices: &mut [Slice],
    lent: &mut usize,
) -> u32
    ensures kept { version.new.held ≡ version.old.held }
    ensures answered { OnVersion version.old.held result ((slices.new ≡ slices.old) × (lent.new ≡ lent.old))
        (λ p. (result ≡ DONE) × AreLent (neighbours (graph_of p) vertex) lent.new slices.old slices.new) }
{
    match version.take(alloc) {
        None => EMPTY,
        Some(held) => {
            let answer = lend_held(&held, vertex, slices, lent);
            version.put(held);
            answer
        }
    }
}

/// The slices in which a vertex's neighbours lie from a place on, as many as there is room for. They stay where they are while any
/// handle of the version is open.
#[unsafe(no_mangle)]
pub extern "C" fn edgebpf_version_lend_from(
    alloc: Global,
    version: &mut Handle,
    vertex: u32,
    place: u32,
    slices: &mut [Slice],
    lent: &mut usize,
) -> u32
    ensures kept { version.new.held ≡ version.old.held }
    ensures answered { OnVersion version.old.held result ((slices.new ≡ slices.old) × (lent.new ≡ lent.old))
        (λ p. (result ≡ DONE) × AreLent (drop place (neighbours (graph_of p) vertex)) lent.new slices.old slices.new) }
{
    match version.take(alloc) {
        None => EMPTY,
        Some(held) => {
            let answer = lend_from_held(&held, vertex, place, slices, lent);
            version.put(held);
            answer
        }
    }
}

/// All edges: where each vertex's neighbours begin, with the end of all after the last, and the neighbours.
#[unsafe(no_mangle)]
pub extern "C" fn edgebpf_version_copy(
    alloc: Global,
    version: &mut Handle,
    starts: &mut [u64],
    targets: &mut [u32],
) -> u32
    ensures kept { version.new.held ≡ version.old.held }
    ensures answered { OnVersion version.old.held result ((starts.new ≡ starts.old) × (targets.new ≡ targets.old))
        (λ past. IsCopy (graph_of past) result starts.old targets.old starts.new targets.new) }
{
    match version.take(alloc) {
        None => EMPTY,
        Some(held) => {
            let answer = copy_held(&held, starts, targets);
            version.put(held);
            answer
        }
    }
}

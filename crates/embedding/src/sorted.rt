//! Stores of edges that are given in sorted arrays.
ghost use Rattle.std.specs.Prelude.{◌≡◌, ◌≢◌, ◌+◌, ◌<◌, ◌≤◌, ℕ, length, true, false};
ghost use Rattle.shards.specs.Arrays.{list_of, start_at};
ghost use Rattle.version.specs.Version.{IsVertexCount};
ghost use Rattle.version.specs.Sorted.{AreSorted, AreStarts, past_of};
ghost use Rattle.embedding.specs.declared.statuses.TheConstants.{DONE, NO_MEMORY};
ghost use Rattle.embedding.specs.Batches.{IsHandedOut};
ghost use Rattle.embedding.specs.Holding.{HoldsStore};
ghost use Rattle.embedding.specs.Sorted.{Rises, AreVertices, IsTested};

use crate::handle::{Handle, hand_out};
use crate::held::Held;
use crate::statuses::{DONE, LENGTHS, NO_MEMORY, NOT_SORTED, VERTEX_COUNT, VERTEX_RANGE};
use crate::store::Store;
use past_model::MOST_VERTICES;
use std::alloc::Global;

// Whether each number is less than the next.
fn rises(list: &[u32]) -> bool
    ensures yes { result ≡ true → Rises list.now }
    ensures no { result ≡ false → Rises list.now → ⊥ }
{
    for place in 1..list.len() {
        if list[place - 1] >= list[place] {
            return false;
        }
    }
    true
}

// Whether each target is a vertex.
fn are_vertices(targets: &[u32], vertex_count: u32) -> bool
    ensures yes { result ≡ true → AreVertices vertex_count targets.now }
    ensures no { result ≡ false → AreVertices vertex_count targets.now → ⊥ }
{
    for place in 0..targets.len() {
        if targets[place] >= vertex_count {
            return false;
        }
    }
    true
}

// Whether these are starts of the lists of so many vertices.
fn are_starts(starts: &[u64], targets: &[u32], vertex_count: u32) -> bool
    requires { length starts.now ≡ vertex_count + 1 }
    ensures yes { result ≡ true → AreStarts vertex_count starts.now targets.now }
    ensures no { result ≡ false → AreStarts vertex_count starts.now targets.now → ⊥ }
{
    if starts[0] != 0 || starts[vertex_count as usize] != targets.len() as u64 {
        return false;
    }
    for vertex in 0..vertex_count as usize {
        if starts[vertex] > starts[vertex + 1] {
            return false;
        }
    }
    true
}

// The list of a vertex.
fn list_at<'a>(starts: &[u64], targets: &'a [u32], vertex: usize) -> &'a [u32]
    requires inside { vertex + 1 < length starts.now }
    requires ascending { start_at starts.now vertex ≤ start_at starts.now (vertex + 1) }
    requires within { start_at starts.now (vertex + 1) ≤ length targets.now }
    ensures { result.now ≡ list_of starts.now targets.now vertex }
{
    &targets[starts[vertex] as usize..starts[vertex + 1] as usize]
}

// Whether the list of each vertex rises.
fn lists_rise(starts: &[u64], targets: &[u32], vertex_count: u32) -> bool
    requires count { length starts.now ≡ vertex_count + 1 }
    requires places { AreStarts vertex_count starts.now targets.now }
    ensures yes { result ≡ true → (v : ℕ) → v < vertex_count → Rises (list_of starts.now targets.now v) }
    ensures no { result ≡ false → ((v : ℕ) → v < vertex_count → Rises (list_of starts.now targets.now v)) → ⊥ }
{
    for vertex in 0..vertex_count as usize {
        if !rises(list_at(starts, targets, vertex)) {
            return false;
        }
    }
    true
}

// What is wrong with arrays, by the first test that fails.
fn fault_of(starts: &[u64], targets: &[u32], vertex_count: u32) -> u32
    ensures { IsTested vertex_count starts.now targets.now result }
{
    if vertex_count == 0 || vertex_count > MOST_VERTICES {
        return VERTEX_COUNT;
    }
    if starts.len() != vertex_count as usize + 1 {
        return LENGTHS;
    }
    if !are_starts(starts, targets, vertex_count) || !lists_rise(starts, targets, vertex_count) {
        return NOT_SORTED;
    }
    if !are_vertices(targets, vertex_count) {
        return VERTEX_RANGE;
    }
    DONE
}

// Writes a handle of a store of arrays that pass the tests.
fn store_of_sorted(
    alloc: Global,
    vertex_count: u32,
    starts: &[u64],
    targets: &[u32],
    out: &mut Handle,
) -> u32
    requires count { IsVertexCount vertex_count }
    requires sorted { AreSorted vertex_count starts.now targets.now }
    ensures { IsHandedOut result (HoldsStore out.new.held (past_of vertex_count starts.now targets.now)) (out.new.held
        ≡ out.old.held) }
{
    match Store::of_lists(alloc, vertex_count, starts, targets) {
        Ok(store) => hand_out(alloc, Held::Store(store), out),
        Err(_) => NO_MEMORY,
    }
}

/// Writes a handle of a new store of so many vertices whose edges are given in sorted arrays: where the list of each vertex begins
/// among the targets, and their number after the last; and the targets, ascending for each vertex. They are the base of a first
/// epoch without a batch. `VERTEX_COUNT` exactly where the vertices are not 1 to 268,435,456; else `LENGTHS` exactly where there is
/// not one start for each vertex and one more; else `NOT_SORTED` exactly where the first start is not 0, the last one is not the
/// number of targets, a start is less than the one before it, or a target is not greater than the one before it in its list; else
/// `VERTEX_RANGE` exactly where a target is no vertex. `NO_MEMORY` comes only where all tests pass.
pub fn store_from(
    alloc: Global,
    vertex_count: u32,
    starts: &[u64],
    targets: &[u32],
    out: &mut Handle,
) -> u32
    ensures tested { result ≢ NO_MEMORY → IsTested vertex_count starts.now targets.now result }
    ensures memory { result ≡ NO_MEMORY → IsTested vertex_count starts.now targets.now DONE }
    ensures made { result ≡ DONE → HoldsStore out.new.held (past_of vertex_count starts.now targets.now) }
    ensures left { result ≢ DONE → out.new.held ≡ out.old.held }
{
    let fault = fault_of(starts, targets, vertex_count);
    if fault != DONE {
        return fault;
    }
    store_of_sorted(alloc, vertex_count, starts, targets, out)
}

//! The frontier of a run: the vertices whose edges are mapped.

ghost use Rattle.std.specs.Prelude.{◌≡◌, IfOk, nat_lt, true};
ghost use Rattle.session_model.specs.Faults.{is_ascending};
ghost use Rattle.std.specs.List.{list_all};
ghost use Rattle.graph_model.specs.Graph.{numbers_below};

use std::alloc::{AllocError, Global};

/// Whether each vertex is below a number of vertices.
pub(crate) fn are_below(frontier: &[u64], vertices: u32) -> bool
    ensures { result ≡ list_all (λ v. nat_lt v vertices) frontier.now }
{
    frontier.iter().all(|v| *v < u64::from(vertices))
}

/// Whether each vertex is below the next one.
pub(crate) fn ascends(frontier: &[u64]) -> bool
    ensures { result ≡ is_ascending frontier.now }
{
    let Some((first, rest)) = frontier.split_first() else {
        return true;
    };
    let mut before = *first;
    for vertex in rest {
        if before >= *vertex {
            return false;
        }
        before = *vertex;
    }
    true
}

/// All vertices of a graph, ascending.
pub(crate) fn all_vertices(alloc: Global, vertices: u32) -> Result<Vec<u32>, AllocError>
    ensures { IfOk result (λ all. all.items ≡ numbers_below vertices) }
{
    let mut all = Vec::with_capacity(alloc, vertices as usize)?;
    for v in 0..vertices {
        all.push(v)?;
    }
    Ok(all)
}

/// The same vertices in 32 bits, which they fit.
pub(crate) fn narrowed(
    alloc: Global,
    frontier: &[u64],
    vertices: u32,
) -> Result<Vec<u32>, AllocError>
    requires { list_all (λ v. nat_lt v vertices) frontier.now ≡ true }
    ensures { IfOk result (λ narrow. narrow.items ≡ frontier.now) }
{
    let mut narrow = Vec::with_capacity(alloc, frontier.len())?;
    for v in frontier {
        narrow.push(*v as u32)?;
    }
    Ok(narrow)
}

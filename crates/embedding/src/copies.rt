//! All edges of a version as two arrays.
ghost use Rattle.std.specs.Prelude.{◌≡◌, Some, length};
ghost use Rattle.graph_model.specs.Graph.{neighbours, degree};
ghost use Rattle.past_model.specs.Past.{graph_of};
ghost use Rattle.embedding.specs.Arrays.{IsCopy};
ghost use Rattle.embedding.specs.Holding.{OnVersion};

use crate::held::Held;
use crate::statuses::{DONE, LENGTHS, OTHER_KIND};
use version::Version;

// Copies a vertex's neighbours.
pub(crate) fn copy_vertex(version: &Version, vertex: u32, targets: &mut [u32])
    requires { length targets.old ≡ degree (graph_of version.now) vertex }
    ensures { targets.new ≡ neighbours (graph_of version.now) vertex }
{
    let mut cursor = version.cursor(vertex);
    let mut place = 0usize;
    'slices: while place < targets.len() {
        let Some(slice) = cursor.next_slice() else {
            unreachable!()
        };
        let end = place + slice.len();
        targets[place..end].copy_from_slice(slice);
        place = end;
    }
}

// Copies all edges.
fn copy_all(version: &Version, starts: &mut [u64], targets: &mut [u32]) -> u32
    ensures { IsCopy (graph_of version.now) result starts.old targets.old starts.new targets.new }
{
    let vertices = version.vertex_count();
    if starts.len() != vertices as usize + 1 || targets.len() as u64 != version.edge_count() {
        return LENGTHS;
    }
    let mut at = 0usize;
    starts[0] = 0;
    'vertices: for vertex in 0..vertices {
        let end = at + version.degree(u64::from(vertex)) as usize;
        copy_vertex(version, vertex, &mut targets[at..end]);
        starts[vertex as usize + 1] = end as u64;
        at = end;
    }
    DONE
}

/// Copies all edges: for each vertex the place where its neighbours begin, and after the last one their end; and the
/// neighbours, vertex after vertex. `LENGTHS`, and nothing is written, where the arrays are not as long as that.
pub fn copy_held(held: &Held, starts: &mut [u64], targets: &mut [u32]) -> u32
    ensures { OnVersion (Some held.now) result ((starts.new ≡ starts.old) × (targets.new ≡ targets.old))
        (λ past. IsCopy (graph_of past) result starts.old targets.old starts.new targets.new) }
{
    match held {
        Held::Version(version) => copy_all(version, starts, targets),
        Held::Store(_) => OTHER_KIND,
        Held::Program(_) => OTHER_KIND,
    }
}

//! What a frontier has to be.
ghost use Rattle.std.specs.Prelude.{◌≡◌, ◌<◌, ◌↔◌, All, true};
ghost use Rattle.std.specs.List.Sorted.{IsStrictlyIncreasing};
ghost use Rattle.edge_map.specs.Maps.{IsFrontier};

/// Whether each vertex is below the next one.
fn ascends(frontier: &[u32]) -> bool
    ensures { (result ≡ true) ↔ IsStrictlyIncreasing frontier.now }
{
    let mut place = 1usize;
    'places: while place < frontier.len() {
        if frontier[place - 1] >= frontier[place] {
            return false;
        }
        place += 1;
    }
    true
}

/// Whether each vertex, of those that ascend, is below a number of vertices: where the last one is.
fn are_below(frontier: &[u32], vertices: u32) -> bool
    requires { IsStrictlyIncreasing frontier.now }
    ensures { (result ≡ true) ↔ All (λ v. v < vertices) frontier.now }
{
    let Some(last) = frontier.len().checked_sub(1) else {
        return true;
    };
    frontier[last] < vertices
}

/// Whether it strictly ascends, below a number of vertices.
pub(crate) fn is_frontier(frontier: &[u32], vertices: u32) -> bool
    ensures { (result ≡ true) ↔ IsFrontier vertices frontier.now }
{
    ascends(frontier) && are_below(frontier, vertices)
}

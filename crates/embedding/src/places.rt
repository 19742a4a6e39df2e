//! Whether a progress that a host hands in is at a place.
ghost use Rattle.std.specs.Prelude.{◌≡◌, true};
ghost use Rattle.past_model.specs.Past.{graph_of};
ghost use Rattle.map_model.specs.Parts.{IsPlace};
ghost use Rattle.embedding.specs.Parts.{is_place};

use map_model::Progress;
use version::Version;

/// Whether a progress is at a place of a frontier: an edge of one of its vertices, the end of these edges, or the frontier's end.
pub(crate) fn is_at_place(version: &Version, frontier: &[u32], progress: &Progress) -> bool
    ensures tested { result ≡ is_place (graph_of version.now) frontier.now progress.now }
    ensures place { result ≡ true → IsPlace (graph_of version.now) frontier.now progress.now }
{
    let vertex = progress.vertex as usize;
    if vertex < frontier.len() {
        progress.place <= version.degree(u64::from(frontier[vertex]))
    } else {
        vertex == frontier.len() && progress.place == 0
    }
}

//! Vertices without edges, passed over many at once.
ghost use Rattle.std.specs.Prelude.{◌≡◌, ◌<◌, ◌≤◌, ℕ, length, take, drop, slice_index};
ghost use Rattle.graph_model.specs.Graph.{degree};
ghost use Rattle.past_model.specs.Past.{graph_of};
ghost use Rattle.map_model.specs.EdgeMap.{all_with};
ghost use Rattle.map_model.specs.Parts.{values_for};
ghost use Rattle.verifier.specs.Walks.{longest};
ghost use Rattle.edge_fold.specs.Inputs.{inputs_of};

use crate::mapped::{Mapped, Request};
use crate::reducing::nothing;
use std::ops::Range;
use version::Version;

/// Writes a number for each of the next vertices of a frontier, from a place on and up to an end, as far as they follow one another
/// and have no edge. Returns the place after them.
fn write_edgeless(
    version: &Version,
    frontier: &[u32],
    values: &mut [u64],
    places: Range<usize>,
    number: u64,
) -> usize
    requires order { places.start ≤ places.end }
    requires inside { places.end ≤ length frontier.now }
    requires long { length values.old ≡ length frontier.now }
    ensures on { places.start ≤ result }
    ensures inside { result ≤ places.end }
    ensures edgeless { (k : ℕ) → places.start ≤ k → k < result
        → degree (graph_of version.now) (slice_index frontier.now k) ≡ 0 }
    ensures written { (k : ℕ) → places.start ≤ k → k < result → slice_index values.new k ≡ number }
    ensures before { take places.start values.new ≡ take places.start values.old }
    ensures rest { drop result values.new ≡ drop result values.old }
    ensures long { length values.new ≡ length values.old }
{
    let at = places.start;
    let Some(first) = frontier.get(at) else {
        return at;
    };
    let first = u64::from(*first);
    let most = version.edgeless_from(first) as usize;
    let end = places.end.min(at.saturating_add(most));
    let mut next = at;
    'vertices: while next < end {
        if u64::from(frontier[next]) != first + (next - at) as u64 {
            break;
        }
        values[next] = number;
        next += 1;
    }
    next
}

/// Passes over a vertex of a frontier that has no edge, and over those after it up to an end, as far as they follow one another and
/// have none. Their values are what no number reduces to. Returns the place after them.
pub(crate) fn pass_edgeless(
    mapped: &Mapped<'_>,
    request: &Request<'_>,
    values: &mut [u64],
    places: Range<usize>,
) -> usize
    requires order { places.start < places.end }
    requires inside { places.end ≤ length request.now.frontier.now }
    requires none { degree (graph_of mapped.now.version.now) (slice_index request.now.frontier.now places.start) ≡ 0 }
    requires long { length values.old ≡ length request.now.frontier.now }
    ensures on { places.start < result }
    ensures inside { result ≤ places.end }
    // They add no number.
    ensures numbers { let m = mapped.now in let p = m.program.now in let g = graph_of m.version.now in
        let f = request.now.frontier.now in
        all_with p (longest p) g (inputs_of m) (take result f)
        ≡ all_with p (longest p) g (inputs_of m) (take places.start f) }
    ensures values { let m = mapped.now in let p = m.program.now in let g = graph_of m.version.now in
        let of = values_for p (longest p) g request.now.reduction (inputs_of m) in let f = request.now.frontier.now in
        take places.start values.old ≡ of (take places.start f) → take result values.new ≡ of (take result f) }
    ensures rest { drop result values.new ≡ drop result values.old }
    ensures long { length values.new ≡ length values.old }
{
    let number = nothing(request.reduction);
    let at = places.start;
    values[at] = number;
    write_edgeless(
        mapped.version,
        request.frontier,
        values,
        at + 1..places.end,
        number,
    )
}

//! Many vertices of a version in one call.
ghost use Rattle.std.specs.Prelude.{◌≡◌};
ghost use Rattle.past_model.specs.Past.{graph_of};
ghost use Rattle.embedding.specs.Holding.{OnVersion};
ghost use Rattle.embedding.specs.Lists.{AreLists, AreDegrees};

use embedding::{EMPTY, Handle, degrees_held, lists_held};
use std::alloc::Global;

/// The neighbours of the vertices of a frontier, one vertex after another: where each one's neighbours begin, with the end of all
/// after the last, and the neighbours. `count` is how many they are, also where there is no room for them,
/// but not for a frontier that is too long.
#[unsafe(no_mangle)]
pub extern "C" fn edgebpf_version_lists(
    alloc: Global,
    version: &mut Handle,
    frontier: &[u32],
    starts: &mut [u64],
    targets: &mut [u32],
    count: &mut usize,
) -> u32
    ensures kept { version.new.held ≡ version.old.held }
    ensures answered { OnVersion version.old.held result ((starts.new ≡ starts.old) × (targets.new ≡ targets.old)
        × (count.new ≡ count.old))
        (λ past. AreLists (graph_of past) frontier.now result starts.old targets.old count.old starts.new targets.new
        count.new) }
{
    match version.take(alloc) {
        None => EMPTY,
        Some(held) => {
            let answer = lists_held(&held, frontier, starts, targets, count);
            version.put(held);
            answer
        }
    }
}

/// How many neighbours each vertex of a frontier has. A vertex outside has none.
#[unsafe(no_mangle)]
pub extern "C" fn edgebpf_version_degrees(
    alloc: Global,
    version: &mut Handle,
    frontier: &[u32],
    counts: &mut [u32],
) -> u32
    ensures kept { version.new.held ≡ version.old.held }
    ensures answered { OnVersion version.old.held result (counts.new ≡ counts.old)
        (λ past. AreDegrees (graph_of past) frontier.now result counts.old counts.new) }
{
    match version.take(alloc) {
        None => EMPTY,
        Some(held) => {
            let answer = degrees_held(&held, frontier, counts);
            version.put(held);
            answer
        }
    }
}

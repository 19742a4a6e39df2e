//! The neighbours of many vertices as two arrays, and how many each of them has.
ghost use Rattle.std.specs.Prelude.{◌≡◌, ◌≤◌, ◌+◌, ◌++◌, Some, length, drop};
ghost use Rattle.past_model.specs.Past.{graph_of};
ghost use Rattle.past_model.specs.declared.limits.TheConstants.{MOST_VERTICES};
ghost use Rattle.embedding.specs.Holding.{OnVersion};
ghost use Rattle.embedding.specs.Lists.{lists_of, list_starts, AreLists, AreDegrees};

use crate::copies::copy_vertex;
use crate::held::Held;
use crate::statuses::{DONE, LENGTHS, OTHER_KIND};
use past_model::MOST_VERTICES;
use version::Version;

// How many neighbours the vertices of a frontier have together.
fn count_of(version: &Version, frontier: &[u32]) -> usize
    requires { length frontier.now ≤ MOST_VERTICES }
    ensures { result ≡ length (lists_of (graph_of version.now) frontier.now) }
{
    let mut count = 0usize;
    'vertices: for place in 0..frontier.len() {
        count += version.degree(u64::from(frontier[place])) as usize;
    }
    count
}

// Copies the lists of a frontier.
fn copy_lists(version: &Version, frontier: &[u32], starts: &mut [u64], targets: &mut [u32])
    requires starts { length starts.old ≡ length frontier.now + 1 }
    requires room { length (lists_of (graph_of version.now) frontier.now) ≤ length targets.old }
    ensures starts { starts.new ≡ list_starts (graph_of version.now) frontier.now }
    ensures lists { let lists = lists_of (graph_of version.now) frontier.now in
        targets.new ≡ lists ++ drop (length lists) targets.old }
{
    let mut at = 0usize;
    starts[0] = 0;
    'vertices: for place in 0..frontier.len() {
        let vertex = frontier[place];
        let end = at + version.degree(u64::from(vertex)) as usize;
        copy_vertex(version, vertex, &mut targets[at..end]);
        starts[place + 1] = end as u64;
        at = end;
    }
}

// Copies the lists of a frontier, if there is room. All is tested before a list is written.
fn copy_frontier(
    version: &Version,
    frontier: &[u32],
    starts: &mut [u64],
    targets: &mut [u32],
    count: &mut usize,
) -> u32
    ensures { AreLists (graph_of version.now) frontier.now result starts.old targets.old count.old starts.new
        targets.new count.new }
{
    if frontier.len() > MOST_VERTICES as usize {
        return LENGTHS;
    }
    *count = count_of(version, frontier);
    if starts.len() != frontier.len() + 1 || targets.len() < *count {
        return LENGTHS;
    }
    copy_lists(version, frontier, starts, targets);
    DONE
}

/// Copies the neighbours of the vertices of a frontier, one vertex after another: for each of them the place where its neighbours
/// begin, and after the last one their end; and the neighbours, after which `targets` stays as it was. The frontier may name
/// vertices in any order and more than once, and one outside the graph has no neighbour. `count` is how many neighbours there
/// are, also where there is no room for them. `LENGTHS`, and no list is written, where `starts` is not as long as that, where
/// `targets` has fewer places than `count`, and where the frontier has more than 268,435,456 vertices, in which case
/// `count` stays as it was.
pub fn lists_held(
    held: &Held,
    frontier: &[u32],
    starts: &mut [u64],
    targets: &mut [u32],
    count: &mut usize,
) -> u32
    ensures { OnVersion (Some held.now) result ((starts.new ≡ starts.old) × (targets.new ≡ targets.old)
        × (count.new ≡ count.old))
        (λ past. AreLists (graph_of past) frontier.now result starts.old targets.old count.old starts.new targets.new
        count.new) }
{
    match held {
        Held::Version(version) => copy_frontier(version, frontier, starts, targets, count),
        Held::Store(_) => OTHER_KIND,
        Held::Program(_) => OTHER_KIND,
    }
}

// Writes the degrees of a frontier.
fn degrees(version: &Version, frontier: &[u32], counts: &mut [u32]) -> u32
    ensures { AreDegrees (graph_of version.now) frontier.now result counts.old counts.new }
{
    if counts.len() != frontier.len() {
        return LENGTHS;
    }
    'vertices: for place in 0..frontier.len() {
        counts[place] = version.degree(u64::from(frontier[place]));
    }
    DONE
}

/// Writes how many neighbours each vertex of a frontier has, in any order and as often as one stands there. A vertex outside has
/// none. `LENGTHS`, and nothing is written, exactly where there is not one place for each.
pub fn degrees_held(held: &Held, frontier: &[u32], counts: &mut [u32]) -> u32
    ensures { OnVersion (Some held.now) result (counts.new ≡ counts.old)
        (λ past. AreDegrees (graph_of past) frontier.now result counts.old counts.new) }
{
    match held {
        Held::Version(version) => degrees(version, frontier, counts),
        Held::Store(_) => OTHER_KIND,
        Held::Program(_) => OTHER_KIND,
    }
}

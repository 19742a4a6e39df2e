//! The number of each edge of a version, and of the edges of a frontier.
ghost use Rattle.std.specs.Prelude.{◌≡◌, Some};
ghost use Rattle.past_model.specs.Past.{graph_of};
ghost use Rattle.embedding.specs.Arrays.{AreNumbers};
ghost use Rattle.embedding.specs.Holding.{OnBoth};
ghost use Rattle.embedding.specs.Lent.{lent_of};
ghost use Rattle.embedding.specs.Parts.{AreNumbersWith};

use crate::held::Held;
use crate::lent::test_lent;
use crate::places::is_at_place;
use crate::runnable::{Edges, Lent, Runnable};
use crate::statuses::{ARGUMENT_LENGTH, DONE, LENGTHS, OTHER_KIND, PROGRESS};
use edge_fold::{EDGE_BYTES, Progress};
use past_model::MOST_VERTICES;
use version::Version;

/// Whose numbers a host asks for.
#[derive(Clone, Copy)]
pub struct NumbersAsked<'a> {
    /// What each run is lent besides its edge.
    pub lent: Lent<'a>,
    /// The vertices whose edges they are, at most 268,435,456 of them in any order.
    pub frontier: &'a [u32],
}

// Writes the numbers of all edges.
fn number_all<'a>(
    version: &'a Version,
    program: &mut Runnable,
    argument: &'a [u8],
    numbers: &mut [u64],
) -> u32
    ensures program { program.new ≡ program.old }
    ensures answered { AreNumbers (graph_of version.now) program.old argument.now result numbers.old numbers.new }
{
    if numbers.len() as u64 != version.edge_count() {
        return LENGTHS;
    }
    if argument.len() + EDGE_BYTES != usize::from(program.record_length()) {
        return ARGUMENT_LENGTH;
    }
    let lent = Lent {
        argument,
        columns: &[],
    };
    program.number(&Edges { version, lent }, numbers);
    DONE
}

/// Writes the number of each edge, sources ascending, and targets ascending for each. Else nothing is written: `LENGTHS`
/// where there is not one place for each edge, then `ARGUMENT_LENGTH` where the argument does not have the record's length
/// less 16 bytes.
pub fn number_held(graph: &Held, code: &mut Held, argument: &[u8], numbers: &mut [u64]) -> u32
    ensures program { code.new ≡ code.old }
    ensures answered { OnBoth (Some graph.now) (Some code.old) result (numbers.new ≡ numbers.old)
        (λ past p. AreNumbers (graph_of past) p argument.now result numbers.old numbers.new) }
{
    let version = match graph {
        Held::Version(version) => version,
        Held::Store(_) => return OTHER_KIND,
        Held::Program(_) => return OTHER_KIND,
    };
    match code {
        Held::Program(program) => number_all(version, program, argument, numbers),
        Held::Store(_) => OTHER_KIND,
        Held::Version(_) => OTHER_KIND,
    }
}

// Goes on with the numbers of a frontier's edges. All is tested before anything is written.
fn number_some(
    version: &Version,
    program: &mut Runnable,
    asked: &NumbersAsked<'_>,
    progress: &mut Progress,
    numbers: &mut [u64],
    written: &mut usize,
) -> u32
    ensures program { program.new ≡ program.old }
    ensures answered { AreNumbersWith (graph_of version.now) program.old (lent_of asked.now.lent)
        asked.now.frontier.now result
        progress.old progress.new numbers.old numbers.new written.old written.new }
{
    let frontier = asked.frontier;
    if frontier.len() > MOST_VERTICES as usize {
        return LENGTHS;
    }
    let fault = test_lent(version, program, &asked.lent);
    if fault != DONE {
        return fault;
    }
    if !is_at_place(version, frontier, progress) {
        return PROGRESS;
    }
    let on = Edges {
        version,
        lent: asked.lent,
    };
    *written = program.number_some(&on, frontier, progress, numbers);
    DONE
}

/// Writes the numbers of the next edges of a frontier's vertices, one vertex after another and targets ascending for each, as far as
/// the progress's budget and the room go, and how many these are: one edge or one vertex at least, if any is left and there is room
/// for a number. The progress is as for `run_some_held`; its total stays. It takes no memory. Else nothing is written: `LENGTHS`
/// where the frontier has more than 268,435,456 vertices, then `COLUMNS`, `ARGUMENT_LENGTH` and `PROGRESS`.
pub fn numbers_some_held(
    graph: &Held,
    code: &mut Held,
    asked: &NumbersAsked<'_>,
    progress: &mut Progress,
    numbers: &mut [u64],
    written: &mut usize,
) -> u32
    ensures program { code.new ≡ code.old }
    ensures answered { OnBoth (Some graph.now) (Some code.old) result
        ((numbers.new ≡ numbers.old) × (written.new ≡ written.old) × (progress.new ≡ progress.old))
        (λ past p. AreNumbersWith (graph_of past) p (lent_of asked.now.lent) asked.now.frontier.now result
        progress.old progress.new numbers.old numbers.new written.old written.new) }
{
    let version = match graph {
        Held::Version(version) => version,
        Held::Store(_) => return OTHER_KIND,
        Held::Program(_) => return OTHER_KIND,
    };
    match code {
        Held::Program(program) => number_some(version, program, asked, progress, numbers, written),
        Held::Store(_) => OTHER_KIND,
        Held::Version(_) => OTHER_KIND,
    }
}

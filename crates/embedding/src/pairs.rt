//! The numbers of pairs of vertices, which need not be edges.
ghost use Rattle.std.specs.Prelude.{◌≡◌, Some};
ghost use Rattle.past_model.specs.Past.{graph_of};
ghost use Rattle.embedding.specs.Holding.{OnBoth};
ghost use Rattle.embedding.specs.Lent.{lent_of};
ghost use Rattle.embedding.specs.Parts.{ArePairsWith};

use crate::held::Held;
use crate::lent::test_lent;
use crate::runnable::{Edges, Lent, Runnable};
use crate::statuses::{DONE, LENGTHS, OTHER_KIND, PROGRESS};
use edge_fold::{Pairs, Progress};
use version::Version;

/// Whose numbers a host asks for: a source and a target at each place.
#[derive(Clone, Copy)]
pub struct PairsAsked<'a> {
    /// What each run is lent besides its pair. A column's numbers are those of the two vertices of the pair; 0 for one outside the graph.
    pub lent: Lent<'a>,
    /// The first vertex of each pair.
    pub sources: &'a [u32],
    /// The second vertex of each pair.
    pub targets: &'a [u32],
}

// Goes on with the numbers of pairs. All is tested before anything is written.
fn number_pairs(
    version: &Version,
    program: &mut Runnable,
    asked: &PairsAsked<'_>,
    progress: &mut Progress,
    numbers: &mut [u64],
) -> u32
    ensures program { program.new ≡ program.old }
    ensures answered { let a = asked.now in ArePairsWith
        (graph_of version.now) program.old (lent_of a.lent) a.sources.now a.targets.now result
        progress.old progress.new numbers.old numbers.new }
{
    let count = asked.sources.len();
    if asked.targets.len() != count || numbers.len() != count || count > u32::MAX as usize {
        return LENGTHS;
    }
    let fault = test_lent(version, program, &asked.lent);
    if fault != DONE {
        return fault;
    }
    if progress.vertex as usize > count || progress.place != 0 {
        return PROGRESS;
    }
    let on = Edges {
        version,
        lent: asked.lent,
    };
    let pairs = Pairs {
        sources: asked.sources,
        targets: asked.targets,
    };
    program.number_pairs(&on, &pairs, progress, numbers);
    DONE
}

/// Writes a number for each of the next pairs, as far as the progress's budget goes, and for one at least, if any is left. A pair need
/// not be an edge: its record has the source and the target as they are given, the source's degree, and the target's place among the
/// source's neighbours, or that degree where it is none of them. The progress's vertex is how many pairs are done, and its total
/// stays. It takes no memory. Else nothing is written: `LENGTHS` where there are not as many targets and numbers as sources, or 2^32
/// pairs and more, then `COLUMNS` and `ARGUMENT_LENGTH` as for a run, then `PROGRESS` where the progress is past the pairs or has a place.
pub fn pairs_held(
    graph: &Held,
    code: &mut Held,
    asked: &PairsAsked<'_>,
    progress: &mut Progress,
    numbers: &mut [u64],
) -> u32
    ensures program { code.new ≡ code.old }
    ensures answered { OnBoth (Some graph.now) (Some code.old) result ((numbers.new ≡ numbers.old) × (progress.new
        ≡ progress.old))
        (λ past p. ArePairsWith (graph_of past) p (lent_of asked.now.lent) asked.now.sources.now asked.now.targets.now
        result
        progress.old progress.new numbers.old numbers.new) }
{
    let version = match graph {
        Held::Version(version) => version,
        Held::Store(_) => return OTHER_KIND,
        Held::Program(_) => return OTHER_KIND,
    };
    match code {
        Held::Program(program) => number_pairs(version, program, asked, progress, numbers),
        Held::Store(_) => OTHER_KIND,
        Held::Version(_) => OTHER_KIND,
    }
}

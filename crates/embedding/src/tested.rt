//! Whether what a host computed of a version, by whatever means, is right.
ghost use Rattle.std.specs.Prelude.{◌≡◌, Some};
ghost use Rattle.answers.specs.Components.{AreComponents};
ghost use Rattle.answers.specs.Cores.{AreCores};
ghost use Rattle.answers.specs.Independent.{IsIndependentSet};
ghost use Rattle.answers.specs.Search.{IsSearch};
ghost use Rattle.past_model.specs.Past.{graph_of};
ghost use Rattle.embedding.specs.Answers.{Tells};
ghost use Rattle.embedding.specs.Holding.{OnVersion};
ghost use Rattle.embedding.specs.declared.statuses.TheConstants.{DONE};

use crate::held::Held;
use crate::statuses::{DONE, OTHER_KIND};
use answers::{
    Components, Cores, Search, are_components, are_cores, is_independent_set, is_search,
};

/// Writes 1 if levels and parents are the answer of a search of the version from its root, and else 0: also where one of the arrays has
/// not an entry for each vertex. A 1 says that the levels are distances (`answers::laws::levels_are_distances`). It takes no memory.
pub fn is_search_held(held: &Held, search: &Search<'_>, answer: &mut u32) -> u32
    ensures { let s = search.now in OnVersion (Some held.now) result (answer.new ≡ answer.old)
        (λ p. (result ≡ DONE) × Tells answer.new (IsSearch (graph_of p) s.root s.levels.now s.parents.now)) }
{
    match held {
        Held::Version(version) => {
            *answer = if is_search(&**version, search) { 1 } else { 0 };
            DONE
        }
        Held::Store(_) => OTHER_KIND,
        Held::Program(_) => OTHER_KIND,
    }
}

/// Writes 1 if labels, parents and steps are an answer of the version's components, and else 0: also where one of the arrays has not an
/// entry for each vertex. A 1 says that the labels are the components' least vertices (`answers::laws::labels_are_components`). It
/// takes no memory.
pub fn are_components_held(held: &Held, components: &Components<'_>, answer: &mut u32) -> u32
    ensures { let c = components.now in OnVersion (Some held.now) result (answer.new ≡ answer.old)
        (λ p. (result ≡ DONE) × Tells answer.new (AreComponents (graph_of p) c.labels.now c.parents.now c.steps.now)) }
{
    match held {
        Held::Version(version) => {
            *answer = if are_components(&**version, components) {
                1
            } else {
                0
            };
            DONE
        }
        Held::Store(_) => OTHER_KIND,
        Held::Program(_) => OTHER_KIND,
    }
}

/// Writes 1 if core numbers and places in an order are an answer of the version's cores, and else 0: also where one of the arrays has not an
/// entry for each vertex. A 1 says that each vertex belongs to a core of its number, and to none of a greater one
/// (`answers::laws::numbers_are_cores`). It takes no memory.
pub fn are_cores_held(held: &Held, cores: &Cores<'_>, answer: &mut u32) -> u32
    ensures { let c = cores.now in OnVersion (Some held.now) result (answer.new ≡ answer.old)
        (λ p. (result ≡ DONE) × Tells answer.new (AreCores (graph_of p) c.numbers.now c.places.now)) }
{
    match held {
        Held::Version(version) => {
            *answer = if are_cores(&**version, cores) { 1 } else { 0 };
            DONE
        }
        Held::Store(_) => OTHER_KIND,
        Held::Program(_) => OTHER_KIND,
    }
}

/// Writes 1 if no edge joins two vertices whose marks are not 0, and each other vertex has an edge to one of these, and else 0: also
/// where there is not a mark for each vertex. A 1 says that they are an independent set, to which no vertex can be added
/// (`answers::laws::sets_are_independent`). It takes no memory.
pub fn is_independent_set_held(held: &Held, marks: &[u8], answer: &mut u32) -> u32
    ensures { OnVersion (Some held.now) result (answer.new ≡ answer.old)
        (λ p. (result ≡ DONE) × Tells answer.new (IsIndependentSet (graph_of p) marks.now)) }
{
    match held {
        Held::Version(version) => {
            *answer = if is_independent_set(&**version, marks) {
                1
            } else {
                0
            };
            DONE
        }
        Held::Store(_) => OTHER_KIND,
        Held::Program(_) => OTHER_KIND,
    }
}

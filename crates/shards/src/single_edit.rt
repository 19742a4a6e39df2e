//! A list of few words after a single edit, in memory of the caller's own frame.
ghost use Rattle.std.specs.Prelude.{◌≡◌, ◌+◌, ◌<◌, ◌≤◌, ◌++◌, ◌∷◌, ℕ, Bool, [], length, filter};
ghost use Rattle.graph_model.specs.Graph.{numbers_below};
ghost use Rattle.shards.specs.declared.single_edit.TheConstants.{MOST_WORDS};
ghost use Rattle.shards.specs.Merge.{AreEditsFrom, IsMerged};

use crate::counts::Counts;
use crate::nearby::place_nearby;
use arrayvec::ArrayVec;
use past_model::Edit;
use vertex_block::PLACES;

/// How many words there are at most: those of a full block, and one.
const MOST_WORDS: usize = PLACES + 1;

// Puts words after others.
fn put(words: &mut ArrayVec<u32, MOST_WORDS>, more: &[u32])
    requires { length words.old.items + length more.now ≤ MOST_WORDS }
    ensures { words.new.items ≡ words.old.items ++ more.now }
{
    match words.try_extend_from_slice(more) {
        Ok(()) => (),
        Err(_) => unreachable!(),
    }
}

/// The targets of a vertex after an edit of it, and what the edit did.
pub(crate) fn edited(targets: &[u32], edit: &Edit) -> (ArrayVec<u32, MOST_WORDS>, Counts)
    requires { length targets.now < MOST_WORDS }
    ensures { (u n : ℕ) (p : ℕ → Bool) → AreEditsFrom u n (edit.now ∷ []) → targets.now ≡ filter p (numbers_below n)
        → IsMerged (edit.now ∷ []) u n p result.0.items result.1 }
{
    let mut words = ArrayVec::new();
    match (edit, place_nearby(targets, edit.target())) {
        (Edit::Insert(_, target), Err(place)) => {
            let (before, behind) = targets.split_at(place);
            put(&mut words, before);
            words.push(*target);
            put(&mut words, behind);
            let counts = Counts {
                added: 1,
                removed: 0,
            };
            (words, counts)
        }
        (Edit::Remove(_, _), Ok(place)) => {
            put(&mut words, &targets[..place]);
            put(&mut words, &targets[place + 1..]);
            let counts = Counts {
                added: 0,
                removed: 1,
            };
            (words, counts)
        }
        (Edit::Insert(_, _), Ok(_)) => {
            put(&mut words, targets);
            (words, Counts::NONE)
        }
        (Edit::Remove(_, _), Err(_)) => {
            put(&mut words, targets);
            (words, Counts::NONE)
        }
    }
}

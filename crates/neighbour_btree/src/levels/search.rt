//! The child that a word goes into.
ghost use Rattle.std.specs.Prelude.{◌≤◌, ◌<◌, ◌+◌, length};
ghost use Rattle.neighbour_btree.specs.Lists.{first_at};

use crate::levels::child::Child;
use crate::levels::level::Level;

/// The last child whose first word is not above a word, or else the first child.
pub(crate) fn child_for<C: Level>(children: &[Child<C>], word: u32) -> usize
    requires { 0 < length children.now }
    ensures within { result < length children.now }
    ensures from { 0 < result → first_at children.now result ≤ word }
    ensures to { result + 1 < length children.now → word < first_at children.now (result + 1) }
{
    let mut low = 0;
    let mut high = children.len();
    while low + 1 < high {
        let middle = low + (high - low) / 2;
        if children[middle].first() <= word {
            low = middle;
        } else {
            high = middle;
        }
    }
    low
}

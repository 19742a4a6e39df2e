//! The laws of the definitions, and of `place`. A function of the first does nothing: its contract is the law. One of
//! the others only calls `place`, and is proved from its contract alone.
ghost use Rattle.std.specs.Prelude.{◌≡◌};
ghost use Rattle.word_sets.specs.Laws.{SetsAscend, MembersAreFound, OneWordMore, OneWordLess, OnePartDecides, NeighboursAreASet, InsertionIsOneWordMore, RemovalIsOneWordLess};

use crate::places::{WORD_LIMIT, place};

/// A set's list is strictly ascending and below the limit, and each such list is a set's.
pub fn sets_ascend()
    ensures { SetsAscend }
{}

/// The test of membership finds exactly the words that are there.
pub fn members_are_found()
    ensures { MembersAreFound }
{}

/// With one word more it is a set again, which has that word and those of before.
pub fn one_word_more()
    ensures { OneWordMore }
{}

/// With one word less it is a set again, which has the others of before.
pub fn one_word_less()
    ensures { OneWordLess }
{}

/// What is asked or changed of a word goes into the one part of a list that can hold it.
pub fn one_part_decides()
    ensures { OnePartDecides }
{}

/// The neighbours in a graph of at most `WORD_LIMIT` vertices are a set.
pub fn neighbours_are_a_set()
    ensures { NeighboursAreASet }
{}

/// An edge put in is one word more in its source's neighbours, and changes no other vertex's.
pub fn insertion_is_one_word_more()
    ensures { InsertionIsOneWordMore }
{}

/// An edge taken out is one word less there.
pub fn removal_is_one_word_less()
    ensures { RemovalIsOneWordLess }
{}

/// The greatest word stands at the only place of its own list.
pub fn greatest_word_is_found() -> Result<usize, usize>
    ensures { result ≡ Ok 0 }
{
    place(&[WORD_LIMIT - 1], WORD_LIMIT - 1)
}

/// A word that is missing belongs before the next greater one.
pub fn missing_word_belongs_between() -> Result<usize, usize>
    ensures { result ≡ Err 1 }
{
    place(&[3, 5], 4)
}

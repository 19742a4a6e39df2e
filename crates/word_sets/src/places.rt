//! The search for a word.
ghost use Rattle.word_sets.specs.Words.{IsSet, IsPlace};

use past_model::MOST_VERTICES;

/// Every word of a set is below this, as each vertex of a graph is.
pub const WORD_LIMIT: u32 = MOST_VERTICES;

/// `Ok` of the place at which a word stands in a set's list. Where it does not, `Err` of the place at which it
/// belongs.
pub fn place(words: &[u32], word: u32) -> Result<usize, usize>
    requires { IsSet words.now }
    ensures { IsPlace word words.now result }
{
    words.binary_search(&word)
}

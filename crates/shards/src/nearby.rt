//! Searches and copies that end within a few words as a rule.
ghost use Rattle.std.specs.Prelude.{◌≡◌, ◌++◌, length, IfOk};
ghost use Rattle.std.specs.List.Sorted.{IsBinarySearchResult, IsSearchInRange};
ghost use Rattle.std.specs.Ordering.{nat_cmp};

use std::alloc::AllocError;

/// How many words are tried, or put, one by one.
pub(crate) const FEW: usize = 8;

/// What a binary search of a word says. The first places are tried one by one.
#[inline(always)]
pub(crate) fn place_nearby(words: &[u32], word: u32) -> Result<usize, usize>
    ensures position { IsBinarySearchResult (λ y. nat_cmp y word) words.now result }
    ensures bound { IsSearchInRange result (length words.now) }
{
    let tried = words.len().min(FEW);
    for place in 0..tried {
        if words[place] == word {
            return Ok(place);
        }
        if words[place] > word {
            return Err(place);
        }
    }
    if tried == words.len() {
        return Err(tried);
    }
    words.binary_search(&word)
}

/// Puts words after others. A few are put one by one.
#[inline(always)]
pub(crate) fn push_words(list: &mut Vec<u32>, words: &[u32]) -> Result<(), AllocError>
    ensures { IfOk result (λ _. list.new.items ≡ list.old.items ++ words.now) }
{
    if words.len() > FEW {
        list.extend_from_slice(words)?;
        return Ok(());
    }
    for word in words {
        list.push(*word)?;
    }
    Ok(())
}

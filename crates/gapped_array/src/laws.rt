//! What an array of two vertices holds after a few calls. Each function only makes public calls, and is proved from
//! their contracts alone.
ghost use Rattle.std.specs.Prelude.{◌≡◌, [], ◌∷◌, Some, true, false, IfOk};

use crate::array::GappedArray;
use std::alloc::{AllocError, Global};

/// A word goes into the list of its vertex and out of it, the other list stays, and a copy has both.
pub fn changes_go_to_one_vertex(alloc: Global) -> Result<GappedArray, AllocError>
    ensures { IfOk result (λ array. array ≡ Some (5 ∷ 6 ∷ []) ∷ Some (8 ∷ []) ∷ []) }
{
    let mut array = GappedArray::empty(alloc);
    array.push(&[6])?;
    array.push(&[7, 8])?;
    array.insert(0, 5)?;
    array.remove(1, 7);
    array.copy(alloc)
}

/// A closed list is no longer open, and the other is.
pub fn closing_closes_one_list(alloc: Global) -> Result<(bool, bool), AllocError>
    ensures { IfOk result (λ found. found ≡ (false, true)) }
{
    let mut array = GappedArray::empty(alloc);
    array.push(&[6])?;
    array.push(&[7, 8])?;
    array.close_run(0);
    Ok((array.is_open(0), array.is_open(1)))
}

/// A word counts once: the second time it was there.
pub fn words_count_once(alloc: Global) -> Result<(bool, bool, bool), AllocError>
    ensures { IfOk result (λ found. found ≡ (true, false, true)) }
{
    let mut array = GappedArray::empty(alloc);
    array.push(&[6])?;
    let first = array.insert(0, 5)?;
    let second = array.insert(0, 5)?;
    Ok((first, second, array.remove(0, 5)))
}

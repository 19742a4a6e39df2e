//! What a block holds after a few calls. Each function only makes public calls, and is proved from their contracts
//! alone.
ghost use Rattle.std.specs.Prelude.{◌≡◌, [], ◌∷◌, true, false};

use crate::block::VertexBlock;

/// Words that are put in stand in ascending order, each once.
pub fn words_stand_in_order() -> VertexBlock
    ensures { result ≡ 3 ∷ 7 ∷ [] }
{
    let mut block = VertexBlock::new();
    block.insert(7);
    block.insert(3);
    block.insert(7);
    block
}

/// A removed word is no longer there, and the others are.
pub fn removal_takes_one_word() -> (bool, bool, bool, bool)
    ensures { result ≡ (true, true, false, true) }
{
    let mut block = VertexBlock::of(&[3, 5, 7]);
    let removed = block.remove(5);
    (
        removed,
        block.contains(3),
        block.contains(5),
        block.contains(7),
    )
}

/// Eleven words leave a place, and twelve do not.
pub fn twelve_are_full() -> (bool, bool)
    ensures { result ≡ (false, true) }
{
    let mut block = VertexBlock::of(&[0, 1, 2, 3, 4, 5, 6, 7, 8, 9, 10]);
    let eleven = block.is_full();
    block.insert(11);
    (eleven, block.is_full())
}

//! A vertex's neighbours as the bytes of words, with which a part of a program's memory is filled.
ghost use Rattle.std.specs.Prelude.{◌≡◌, ◌+◌, ◌*◌, ◌/◌, ◌%◌, ◌≤◌, [], ◌∷◌, ◌++◌, length, take, drop, min, MatchOption};
ghost use Rattle.std.specs.Int.{w32, to_le_bytes};
ghost use Rattle.past_model.specs.declared.limits.TheConstants.{MOST_VERTICES};
ghost use Rattle.graph_model.specs.Graph.{Graph};
ghost use Rattle.graph_model.specs.Views.{words_from, neighbour_words, neighbours_among, word_bytes};
ghost use Rattle.shard_table.specs.Table.{IsShardOf};

use crate::cursor::Cursor;
use shards::Shard;
use std::marker::Model;

/// The word where there is no neighbour. It is no vertex.
const NO_WORD: u32 = u32::MAX;

/// The words of a cursor's slices, one after another.
#[derive(Drop)]
struct Words<'a> {
    slice: &'a [u32],
    rest: Cursor<'a>,
}

impl<'a> Model for Words<'a> {
    ghost use Rattle.std.specs.Prelude.{List, ℕ, ◌++◌};

    ghost Value = { List ℕ };

    ghost view = { λ w. w.slice.now ++ w.rest };
}

impl<'a> Words<'a> {
    /// The first of what is left.
    fn next(&mut self) -> Option<u32>
        ensures { MatchOption result
            ((self.old ≡ []) × (self.new ≡ []))
            (λ word. self.old ≡ word ∷ self.new) }
    {
        if self.slice.is_empty() {
            self.slice = self.rest.next_slice()?;
        }
        let (word, later) = self.slice.split_first()?;
        self.slice = later;
        Some(*word)
    }
}

/// Writes a word as four bytes, the lowest first, at its place among words.
fn write_word(out: &mut [u8], place: usize, word: u32)
    requires { 4 * place + 4 ≤ length out.old }
    ensures { out.new ≡ (take (4 * place) out.old ++ to_le_bytes w32 word) ++ drop (4 * place + 4) out.old }
{
    out[4 * place..4 * place + 4].copy_from_slice(&word.to_le_bytes());
}

/// Fills a slice with a cursor's words, and with words that are no vertices where it ends. It returns
/// how many the cursor had.
fn fill(cursor: Cursor<'_>, out: &mut [u8]) -> u32
    requires whole { length out.old % 4 ≡ 0 }
    requires few { length cursor ≤ MOST_VERTICES }
    ensures words { out.new ≡ word_bytes (words_from cursor.entry 0 (length out.old / 4)) }
    ensures count { result ≡ min (length out.old / 4) (length cursor.entry) }
{
    let mut words = Words {
        slice: &[],
        rest: cursor,
    };
    let mut found = 0;
    for place in 0..out.len() / 4 {
        let word = match words.next() {
            Some(word) => {
                found += 1;
                word
            }
            None => NO_WORD,
        };
        write_word(out, place, word);
    }
    found
}

/// Fills a slice with the neighbours of a vertex, in whose shard they stand, from a place on, each as four
/// bytes, the lowest first, and with bytes 255 where there are no more. It returns how many there
/// were. Vertex and place are not cut: a vertex outside has no neighbours. It takes no memory, and one
/// pass over the places that are wanted.
pub fn gather(shard: Option<&Shard>, vertex: u64, first: u64, out: &mut [u8]) -> u32
    requires { length out.old % 4 ≡ 0 }
    ensures words { (g : Graph) → IsShardOf g vertex shard.entry
        → out.new ≡ word_bytes (neighbour_words g vertex first (length out.old / 4)) }
    ensures count { (g : Graph) → IsShardOf g vertex shard.entry
        → result ≡ neighbours_among g vertex first (length out.old / 4) }
{
    fill(Cursor::from_place(shard, vertex, first), out)
}

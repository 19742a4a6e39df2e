//! The block and its calls.
ghost use Rattle.std.specs.Prelude.{◌≡◌, ◌<◌, ◌≤◌, ◌↔◌, ◌⊎◌, [], length, not, true, IsTrue};
ghost use Rattle.word_sets.specs.Words.{IsSet, has_word, with_word, without_word};

use arrayvec::ArrayVec;
use std::marker::Model;
use word_sets::{WORD_LIMIT, place};

/// How many words a block can hold.
pub const PLACES: usize = 12;

/// A set of at most [`PLACES`] words, each below `WORD_LIMIT`, in 52 bytes. Clauses see it as the ascending list of
/// its words.
#[derive(Clone, Copy)]
pub struct VertexBlock {
    // 0 stands at the places that are free, so that a block's words determine it.
    places: [u32; PLACES],
    len: u32,
}

impl Model for VertexBlock {
    ghost use Rattle.std.specs.Prelude.{◌++◌, ◌-◌, List, ℕ, length, replicate, take};
    ghost use Rattle.vertex_block.specs.Block.{IsBlock};
    ghost use Rattle.vertex_block.specs.Given.{places_told};
    ghost use Rattle.vertex_block.specs.declared.block.TheConstants.{PLACES};

    ghost Value = { List ℕ };

    ghost view = { λ b. take b.len b.places };

    ghost invariant = { λ b. IsBlock b.len b.places };

    ghost inverse = { λ ws. record { places = ws ++ replicate (PLACES - length ws) 0; len = length ws } };

    ghost inverse_ok = { λ b is. places_told b is };
}

// A list of a block's words.
fn list_of(words: &[u32]) -> ArrayVec<u32, PLACES>
    requires { length words.now ≤ PLACES }
    ensures { result.items ≡ words.now }
{
    let mut list = ArrayVec::new();
    match list.try_extend_from_slice(words) {
        Ok(()) => list,
        Err(_) => unreachable!(),
    }
}

impl VertexBlock {
    /// The empty set.
    pub fn new() -> VertexBlock
        ensures { result ≡ [] }
    {
        VertexBlock {
            places: [0; PLACES],
            len: 0,
        }
    }

    /// The set of these words.
    pub fn of(words: &[u32]) -> VertexBlock
        requires set { IsSet words.now }
        requires fits { length words.now ≤ PLACES }
        ensures { result ≡ words.now }
    {
        let mut places = [0; PLACES];
        places[..words.len()].copy_from_slice(words);
        VertexBlock {
            places,
            len: words.len() as u32,
        }
    }

    /// The words, ascending.
    pub fn as_slice(&self) -> &[u32]
        ensures words { result.now ≡ self.now }
        ensures set { IsSet result.now }
        ensures fits { length result.now ≤ PLACES }
    {
        &self.places[..self.len as usize]
    }

    /// Whether each place has a word.
    pub fn is_full(&self) -> bool
        ensures { IsTrue result ↔ (length self.now ≡ PLACES) }
    {
        self.len as usize == PLACES
    }

    /// Whether a word is in the set.
    pub fn contains(&self, word: u32) -> bool
        ensures { result ≡ has_word word self.now }
    {
        place(self.as_slice(), word).is_ok()
    }

    /// Puts a word in, and answers whether it was not there. The caller knows that there is a place for it, or that
    /// it is there.
    pub fn insert(&mut self, word: u32) -> bool
        requires word { word < WORD_LIMIT }
        requires room { (length self.old < PLACES) ⊎ (has_word word self.old ≡ true) }
        ensures words { self.new ≡ with_word word self.old }
        ensures changed { result ≡ not (has_word word self.old) }
    {
        match place(self.as_slice(), word) {
            Ok(_) => false,
            Err(at) => {
                let mut list = list_of(self.as_slice());
                list.insert(at, word);
                *self = VertexBlock::of(list.as_slice());
                true
            }
        }
    }

    /// Takes a word out, and answers whether it was there.
    pub fn remove(&mut self, word: u32) -> bool
        ensures words { self.new ≡ without_word word self.old }
        ensures changed { result ≡ has_word word self.old }
    {
        match place(self.as_slice(), word) {
            Ok(at) => {
                let mut list = list_of(self.as_slice());
                list.remove(at);
                *self = VertexBlock::of(list.as_slice());
                true
            }
            Err(_) => false,
        }
    }
}

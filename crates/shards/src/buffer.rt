//! Room for a list that is made again and again.
ghost use Rattle.std.specs.Prelude.{◌≡◌, ◌+◌, ◌<◌, ◌≤◌, ◌++◌, ◌∷◌, [], length, take, vec_len, IfOk, OnErr};

use crate::nearby::FEW;
use std::alloc::{AllocError, Global};
use std::marker::Model;

/// How many words more there is room for, at least, where there was none.
const MORE: usize = 64;

/// A list of words, in room that is kept where it becomes shorter.
#[derive(Drop)]
pub(crate) struct Buffer {
    places: Vec<u32>,
    count: usize,
}

impl Model for Buffer {
    ghost use Rattle.std.specs.Prelude.{◌≤◌, List, ℕ, take, vec_len};

    ghost Value = { List ℕ };

    ghost view = { λ b. take b.count b.places.items };

    ghost invariant = { λ b. b.count ≤ vec_len b.places };
}

// Writes words over those from a place on.
fn write(places: &mut Vec<u32>, at: usize, words: &[u32])
    requires { at + length words.now ≤ vec_len places.old }
    ensures words { take (at + length words.now) places.new.items ≡ take at places.old.items ++ words.now }
    ensures room { vec_len places.new ≡ vec_len places.old }
{
    places[at..at + words.len()].copy_from_slice(words);
}

// Room for so many places, and some more.
#[cold]
#[inline(never)]
fn widen(places: &mut Vec<u32>, count: usize) -> Result<(), AllocError>
    requires { vec_len places.old < count }
    ensures same { IfOk result (λ _. take (vec_len places.old) places.new.items ≡ places.old.items) }
    ensures room { IfOk result (λ _. count ≤ vec_len places.new) }
    ensures err { OnErr result (vec_len places.new ≡ vec_len places.old) }
{
    places.resize(count.saturating_add(MORE), 0)?;
    Ok(())
}

impl Buffer {
    /// The empty list.
    pub(crate) fn new(alloc: Global) -> Buffer
        ensures { result ≡ [] }
    {
        Buffer {
            places: Vec::new(alloc),
            count: 0,
        }
    }

    /// The words.
    pub(crate) fn words(&self) -> &[u32]
        ensures { result.now ≡ self.now }
    {
        &self.places[..self.count]
    }

    /// Takes all words away.
    pub(crate) fn clear(&mut self)
        ensures { self.new ≡ [] }
    {
        self.count = 0;
    }

    /// Puts a word after the others.
    #[inline(always)]
    pub(crate) fn push(&mut self, word: u32) -> Result<(), AllocError>
        ensures { IfOk result (λ _. self.new ≡ self.old ++ word ∷ []) }
    {
        if self.count == self.places.len() {
            widen(&mut self.places, self.count + 1)?;
        }
        self.places[self.count] = word;
        self.count += 1;
        Ok(())
    }

    /// Puts words after the others.
    #[inline(always)]
    pub(crate) fn extend(&mut self, words: &[u32]) -> Result<(), AllocError>
        ensures { IfOk result (λ _. self.new ≡ self.old ++ words.now) }
    {
        if words.len() > FEW {
            return self.extend_by_many(words);
        }
        for word in words {
            self.push(*word)?;
        }
        Ok(())
    }

    // The same, in one move.
    fn extend_by_many(&mut self, words: &[u32]) -> Result<(), AllocError>
        ensures { IfOk result (λ _. self.new ≡ self.old ++ words.now) }
    {
        let count = self.count + words.len();
        if count > self.places.len() {
            widen(&mut self.places, count)?;
        }
        write(&mut self.places, self.count, words);
        self.count = count;
        Ok(())
    }
}

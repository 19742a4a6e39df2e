//! Leaves: the lowest level.
ghost use Rattle.std.specs.Prelude.{◌≡◌, ◌≤◌, ◌<◌, ◌++◌, length, insert, remove, IfOk, OnErr};
ghost use Rattle.word_sets.specs.Words.{IsSet};
ghost use Rattle.neighbour_btree.specs.Node.{Node, leaf_of, IsLeaf};
ghost use Rattle.neighbour_btree.specs.Shared.{items_of};
ghost use Rattle.neighbour_btree.specs.Changes.{Packs, Shrinks, Adds, Takes};

use crate::levels::change::{Change, Grown};
use crate::levels::level::{Level, MOST};
use std::alloc::{AllocError, Global};
use std::marker::Model;
use std::sync::Arc;
use word_sets::{WORD_LIMIT, place};

/// Up to `MOST` words.
#[derive(Drop)]
pub(crate) struct Leaf {
    words: Arc<Vec<u32>>,
}

impl Model for Leaf {
    ghost use Rattle.neighbour_btree.specs.Node.{Node, leaf_of, IsLeaf};
    ghost use Rattle.neighbour_btree.specs.Shared.{items_of};

    ghost Value = { Node };

    ghost view = { λ l. leaf_of (items_of l.words) };

    ghost invariant = { λ l. IsLeaf (items_of l.words) };
}

impl Leaf {
    /// The leaf of these words.
    pub(crate) fn new(alloc: Global, words: Vec<u32>) -> Result<Leaf, AllocError>
        requires { IsLeaf words.items }
        ensures { IfOk result (λ leaf. leaf ≡ leaf_of words.items) }
    {
        Ok(Leaf {
            words: Arc::new(alloc, words)?,
        })
    }
}

impl Level for Leaf {
    ghost node = { λ l. l };

    ghost least = { 16 };

    fn share(&self) -> Result<Leaf, AllocError> {
        Ok(Leaf {
            words: Arc::try_clone(&self.words)?,
        })
    }

    fn size(&self) -> usize {
        self.words.len()
    }

    fn count(&self) -> u32 {
        self.words.len() as u32
    }

    fn first(&self) -> u32 {
        self.words[0]
    }

    fn contains(&self, word: u32) -> bool {
        place(self.words.as_slice(), word).is_ok()
    }

    fn slice_at(&self, place: u32) -> &[u32] {
        &self.words.as_slice()[place as usize..]
    }

    fn with(&self, alloc: Global, word: u32) -> Result<Grown<Leaf>, AllocError> {
        let words = self.words.as_slice();
        match place(words, word) {
            Ok(_) => Ok(Grown::Same),
            Err(at) => {
                let words = inserted(alloc, words, at, word)?;
                let (first, second) = packed(alloc, words)?;
                Ok(Grown::New(first, second))
            }
        }
    }

    // A leaf may lose its last word, too.
    fn without(&self, alloc: Global, word: u32) -> Result<Option<Leaf>, AllocError>
        ensures { IfOk result (Shrinks (λ (l : Node). l) 16 self.now word) }
    {
        let words = self.words.as_slice();
        match place(words, word) {
            Err(_) => Ok(None),
            Ok(at) => {
                let words = removed(alloc, words, at)?;
                let leaf = Leaf::new(alloc, words)?;
                Ok(Some(leaf))
            }
        }
    }

    fn join(&self, alloc: Global, right: &Leaf) -> Result<(Leaf, Option<Leaf>), AllocError> {
        let words = concatenated(alloc, self.words.as_slice(), right.words.as_slice())?;
        let pair = packed(alloc, words)?;
        Ok(pair)
    }

    fn insert(&mut self, _alloc: Global, word: u32) -> Result<Change, AllocError> {
        insert_owned(&mut self.words, word)
    }

    fn remove(&mut self, _alloc: Global, word: u32) -> Result<Change, AllocError>
        ensures ok { IfOk result (Takes 16 self.old self.new word) }
        ensures err { OnErr result (self.new ≡ self.old) }
    {
        Ok(remove_owned(&mut self.words, word))
    }
}

// How many words a copied leaf can take before it grows.
const SPARE: usize = 4;

fn inserted(alloc: Global, words: &[u32], at: usize, word: u32) -> Result<Vec<u32>, AllocError>
    requires { at ≤ length words.now }
    ensures { IfOk result (λ list. list.items ≡ insert words.now at word) }
{
    let mut list = Vec::with_capacity(alloc, words.len().saturating_add(SPARE))?;
    list.extend_from_slice(&words[..at])?;
    list.push(word)?;
    list.extend_from_slice(&words[at..])?;
    Ok(list)
}

fn removed(alloc: Global, words: &[u32], at: usize) -> Result<Vec<u32>, AllocError>
    requires { at < length words.now }
    ensures { IfOk result (λ list. list.items ≡ remove words.now at) }
{
    let mut list = Vec::with_capacity(alloc, words.len())?;
    list.extend_from_slice(&words[..at])?;
    list.extend_from_slice(&words[at + 1..])?;
    Ok(list)
}

fn concatenated(alloc: Global, left: &[u32], right: &[u32]) -> Result<Vec<u32>, AllocError>
    ensures { IfOk result (λ list. list.items ≡ left.now ++ right.now) }
{
    let mut list = Vec::with_capacity(alloc, left.len().saturating_add(right.len()))?;
    list.extend_from_slice(left)?;
    list.extend_from_slice(right)?;
    Ok(list)
}

// One leaf, or two halves where the words are too many for one.
fn packed(alloc: Global, mut words: Vec<u32>) -> Result<(Leaf, Option<Leaf>), AllocError>
    requires set { IsSet words.items }
    requires fits { length words.items ≤ 128 }
    ensures { IfOk result (λ pair. Packs (λ (l : Node). l) 16 (length words.items) words.items pair.0 pair.1) }
{
    if words.len() <= MOST {
        let leaf = Leaf::new(alloc, words)?;
        return Ok((leaf, None));
    }
    let later = words.split_off(words.len() / 2)?;
    let first = Leaf::new(alloc, words)?;
    let second = Leaf::new(alloc, later)?;
    Ok((first, Some(second)))
}

fn insert_word(words: &mut Vec<u32>, word: u32) -> Result<Change, AllocError>
    requires leaf { IsLeaf words.old.items }
    requires word { word < WORD_LIMIT }
    ensures leaf { IsLeaf words.new.items }
    ensures ok { IfOk result (Adds 16 (leaf_of words.old.items) (leaf_of words.new.items) word) }
    ensures err { OnErr result (words.new.items ≡ words.old.items) }
{
    match place(words.as_slice(), word) {
        Ok(_) => Ok(Change::Same),
        Err(at) => {
            if words.len() >= MOST {
                return Ok(Change::Unable);
            }
            words.insert(at, word)?;
            Ok(Change::Changed)
        }
    }
}

fn remove_word(words: &mut Vec<u32>, word: u32) -> Change
    requires { IsLeaf words.old.items }
    ensures leaf { IsLeaf words.new.items }
    ensures change { Takes 16 (leaf_of words.old.items) (leaf_of words.new.items) word result }
{
    match place(words.as_slice(), word) {
        Err(_) => Change::Same,
        Ok(at) => {
            words.remove(at);
            Change::Changed
        }
    }
}

fn insert_owned(words: &mut Arc<Vec<u32>>, word: u32) -> Result<Change, AllocError>
    requires leaf { IsLeaf (items_of words.old) }
    requires word { word < WORD_LIMIT }
    ensures leaf { IsLeaf (items_of words.new) }
    ensures ok { IfOk result (Adds 16 (leaf_of (items_of words.old)) (leaf_of (items_of words.new)) word) }
    ensures err { OnErr result (items_of words.new ≡ items_of words.old) }
{
    let Some(words) = Arc::get_mut(words) else {
        return Ok(Change::Unable);
    };
    insert_word(words, word)
}

fn remove_owned(words: &mut Arc<Vec<u32>>, word: u32) -> Change
    requires { IsLeaf (items_of words.old) }
    ensures leaf { IsLeaf (items_of words.new) }
    ensures change { Takes 16 (leaf_of (items_of words.old)) (leaf_of (items_of words.new)) word result }
{
    let Some(words) = Arc::get_mut(words) else {
        return Change::Unable;
    };
    remove_word(words, word)
}

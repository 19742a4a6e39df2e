//! Inner nodes: each level over another.
ghost use Rattle.std.specs.Prelude.{◌≡◌, ◌≤◌, ◌<◌, ◌+◌, ◌*◌, ◌++◌, ◌∷◌, [], length, All, None, IfOk, OnErr};
ghost use Rattle.word_sets.specs.Words.{IsSet};
ghost use Rattle.neighbour_btree.specs.Node.{Node, words_under, inner_of, IsChild, IsSound, IsInner};
ghost use Rattle.neighbour_btree.specs.Lists.{replacement};
ghost use Rattle.neighbour_btree.specs.Changes.{Packs, Takes, IsSliceAt};
ghost use Rattle.neighbour_btree.specs.Lists.{Mends};

use crate::levels::change::{Change, Grown};
use crate::levels::child::{Child, adopted};
use crate::levels::in_place::{insert_owned, remove_owned};
use crate::levels::level::{FEWEST, Level, MOST};
use crate::levels::lists::{concatenated, with_replaced};
use crate::levels::search::child_for;
use std::alloc::{AllocError, Global};
use std::marker::Model;
use std::sync::Arc;
use word_sets::WORD_LIMIT;

/// Up to `MOST` children, each at least a quarter full.
#[derive(Drop)]
pub(crate) struct Inner<C: Level> {
    children: Arc<Vec<Child<C>>>,
}

impl<C: Level> Model for Inner<C> {
    ghost use Rattle.neighbour_btree.specs.Node.{Node, inner_of, IsInner};
    ghost use Rattle.neighbour_btree.specs.Shared.{items_of};

    ghost Value = { Node };

    ghost view = { λ n. inner_of (items_of n.children) };

    ghost invariant = { λ n. IsInner C.least (items_of n.children) };
}

impl<C: Level> Inner<C> {
    /// The node of these children.
    pub(crate) fn new(alloc: Global, children: Vec<Child<C>>) -> Result<Inner<C>, AllocError>
        requires { IsInner C.least children.items }
        ensures { IfOk result (λ node. node ≡ inner_of children.items) }
    {
        Ok(Inner {
            children: Arc::new(alloc, children)?,
        })
    }

    /// The node of two children.
    pub(crate) fn of_two(alloc: Global, first: C, second: C) -> Result<Inner<C>, AllocError>
        requires first { IsChild C.least (C.node first) }
        requires second { IsChild C.least (C.node second) }
        requires set { IsSet ((C.node first).words ++ (C.node second).words) }
        ensures { IfOk result (λ node. node ≡ inner_of (C.node first ∷ C.node second ∷ [])) }
    {
        let mut children = Vec::with_capacity(alloc, 2)?;
        children.push(Child::of(first))?;
        children.push(Child::of(second))?;
        let node = Inner::new(alloc, children)?;
        Ok(node)
    }

    /// Another owner of its only child.
    pub(crate) fn only_child(&self) -> Result<C, AllocError>
        requires { self.now.size ≡ 1 }
        ensures words { IfOk result (λ node. (C.node node).words ≡ self.now.words) }
        ensures child { IfOk result (λ node. IsChild C.least (C.node node)) }
    {
        let child = self.children[0].node().share()?;
        Ok(child)
    }

    /// Takes a word out, in place, of a root: it keeps two children. After an error the node is as it was.
    pub(crate) fn remove_from_root(
        &mut self,
        alloc: Global,
        word: u32,
    ) -> Result<Change, AllocError>
        requires word { word < WORD_LIMIT }
        requires enough { 2 ≤ self.old.size }
        ensures ok { IfOk result (Takes (16 * C.least) self.old self.new word) }
        ensures err { OnErr result (self.new ≡ self.old) }
        ensures two { 2 ≤ self.new.size }
    {
        remove_owned(&mut self.children, alloc, word, 2)
    }
}

impl<C: Level> Level for Inner<C> {
    ghost use Rattle.std.specs.Prelude.{◌*◌};

    ghost node = { λ n. n };

    ghost least = { 16 * C.least };

    fn share(&self) -> Result<Inner<C>, AllocError> {
        Ok(Inner {
            children: Arc::try_clone(&self.children)?,
        })
    }

    fn size(&self) -> usize {
        self.children.len()
    }

    fn count(&self) -> u32 {
        counted(self.children.as_slice())
    }

    fn first(&self) -> u32 {
        self.children[0].first()
    }

    fn contains(&self, word: u32) -> bool {
        let children = self.children.as_slice();
        let at = child_for(children, word);
        children[at].node().contains(word)
    }

    fn slice_at(&self, place: u32) -> &[u32] {
        slice_among(self.children.as_slice(), place)
    }

    fn with(&self, alloc: Global, word: u32) -> Result<Grown<Inner<C>>, AllocError> {
        let children = self.children.as_slice();
        let at = child_for(children, word);
        match children[at].node().with(alloc, word)? {
            Grown::Same => Ok(Grown::Same),
            Grown::New(first, second) => {
                let pair = adopted(first, second);
                let list = with_replaced(alloc, children, at, 1, pair)?;
                let (first, second) = packed(alloc, list)?;
                Ok(Grown::New(first, second))
            }
        }
    }

    fn without(&self, alloc: Global, word: u32) -> Result<Option<Inner<C>>, AllocError> {
        let children = self.children.as_slice();
        let at = child_for(children, word);
        match children[at].node().without(alloc, word)? {
            None => Ok(None),
            Some(node) => {
                let list = mended(alloc, children, at, node)?;
                let node = Inner::new(alloc, list)?;
                Ok(Some(node))
            }
        }
    }

    fn join(
        &self,
        alloc: Global,
        right: &Inner<C>,
    ) -> Result<(Inner<C>, Option<Inner<C>>), AllocError> {
        let list = concatenated(alloc, self.children.as_slice(), right.children.as_slice())?;
        let pair = packed(alloc, list)?;
        Ok(pair)
    }

    fn insert(&mut self, alloc: Global, word: u32) -> Result<Change, AllocError> {
        insert_owned(&mut self.children, alloc, word)
    }

    fn remove(&mut self, alloc: Global, word: u32) -> Result<Change, AllocError> {
        remove_owned(&mut self.children, alloc, word, 1)
    }
}

// How many words are under these children.
fn counted<C: Level>(children: &[Child<C>]) -> u32
    requires { IsSet (words_under children.now) }
    ensures { result ≡ length (words_under children.now) }
{
    let mut count = 0;
    for child in children {
        count += child.count();
    }
    count
}

// The words from a place on, as far as they lie in one leaf.
fn slice_among<C: Level>(children: &[Child<C>], place: u32) -> &[u32]
    requires { place < length (words_under children.now) }
    ensures { IsSliceAt (words_under children.now) place result.now }
{
    let mut left = place;
    for child in children {
        let count = child.count();
        if left < count {
            return child.node().slice_at(left);
        }
        left -= count;
    }
    unreachable!()
}

// One node, or two halves where the children are too many for one.
fn packed<C: Level>(
    alloc: Global,
    mut children: Vec<Child<C>>,
) -> Result<(Inner<C>, Option<Inner<C>>), AllocError>
    requires some { 0 < length children.items }
    requires fits { length children.items ≤ 128 }
    requires children { All (IsChild C.least) children.items }
    requires set { IsSet (words_under children.items) }
    ensures { IfOk result (λ pair. Packs (λ (n : Node). n) (16 * C.least) (length children.items)
        (words_under children.items) pair.0 pair.1) }
{
    if children.len() <= MOST {
        let node = Inner::new(alloc, children)?;
        return Ok((node, None));
    }
    let later = children.split_off(children.len() / 2)?;
    let first = Inner::new(alloc, children)?;
    let second = Inner::new(alloc, later)?;
    Ok((first, Some(second)))
}

/// Other owners of these children, of which one lost a word: where it is too small now, it is joined with a neighbour.
pub(crate) fn mended<C: Level>(
    alloc: Global,
    children: &[Child<C>],
    at: usize,
    node: C,
) -> Result<Vec<Child<C>>, AllocError>
    requires within { at < length children.now }
    requires enough { 2 ≤ length children.now }
    requires children { All (IsChild C.least) children.now }
    requires sound { IsSound C.least (C.node node) }
    requires size { FEWEST ≤ (C.node node).size + 1 }
    requires set { IsSet (words_under (replacement children.now at 1 (C.node node) None)) }
    ensures mends { IfOk result (λ list. Mends C.least children.now at (C.node node) list.items) }
    ensures alone { FEWEST ≤ (C.node node).size → IfOk result (λ list. length list.items ≡ length children.now) }
{
    if FEWEST <= node.size() {
        let list = with_replaced(alloc, children, at, 1, (Child::of(node), None))?;
        return Ok(list);
    }
    if at + 1 < children.len() {
        let (first, second) = node.join(alloc, children[at + 1].node())?;
        let list = with_replaced(alloc, children, at, 2, adopted(first, second))?;
        return Ok(list);
    }
    let (first, second) = children[at - 1].node().join(alloc, &node)?;
    let list = with_replaced(alloc, children, at - 1, 2, adopted(first, second))?;
    Ok(list)
}

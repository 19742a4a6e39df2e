//! Changes of inner nodes in place. A node that has one owner is written; one that is shared, or that would have to be
//! cut or joined, reports that it is unable, and is replaced in its parent.
ghost use Rattle.std.specs.Prelude.{◌≡◌, ◌≤◌, ◌<◌, ◌+◌, ◌*◌, length, IfOk, OnErr, MatchBool, None};
ghost use Rattle.neighbour_btree.specs.Node.{inner_of, IsInner};
ghost use Rattle.neighbour_btree.specs.Shared.{items_of};
ghost use Rattle.neighbour_btree.specs.Lists.{replacement};
ghost use Rattle.neighbour_btree.specs.Changes.{Adds, Takes};

use crate::levels::change::{Change, Grown};
use crate::levels::child::{Child, adopted};
use crate::levels::inner::mended;
use crate::levels::level::{FEWEST, Level, MOST};
use crate::levels::search::child_for;
use std::alloc::{AllocError, Global};
use std::sync::Arc;
use word_sets::WORD_LIMIT;

// Puts a word into the child that it goes into.
fn insert_below<C: Level>(
    children: &mut Vec<Child<C>>,
    alloc: Global,
    word: u32,
) -> Result<Change, AllocError>
    requires inner { IsInner C.least children.old.items }
    requires word { word < WORD_LIMIT }
    ensures inner { IsInner C.least children.new.items }
    ensures ok { IfOk result (Adds (16 * C.least) (inner_of children.old.items) (inner_of children.new.items) word) }
    ensures err { OnErr result (inner_of children.new.items ≡ inner_of children.old.items) }
{
    let at = child_for(children.as_slice(), word);
    let child = &mut children[at];
    child.insert(alloc, word)
}

// Puts one child or two in the place of one. It answers whether there was room.
fn put<C: Level>(
    children: &mut Vec<Child<C>>,
    at: usize,
    first: Child<C>,
    second: Option<Child<C>>,
) -> Result<bool, AllocError>
    requires within { at < length children.old.items }
    requires most { length children.old.items ≤ MOST }
    ensures ok { IfOk result (λ done. MatchBool done (children.new.items
        ≡ replacement children.old.items at 1 first second) (children.new.items ≡ children.old.items)) }
    ensures err { OnErr result (children.new.items ≡ children.old.items) }
    ensures fits { length children.new.items ≤ MOST }
{
    match second {
        None => {
            children[at] = first;
            Ok(true)
        }
        Some(second) => {
            if children.len() >= MOST {
                return Ok(false);
            }
            children.insert(at + 1, second)?;
            children[at] = first;
            Ok(true)
        }
    }
}

// The same where the child cannot do it: what it becomes is put in its place.
fn replace_below<C: Level>(
    children: &mut Vec<Child<C>>,
    alloc: Global,
    word: u32,
) -> Result<Change, AllocError>
    requires inner { IsInner C.least children.old.items }
    requires word { word < WORD_LIMIT }
    ensures inner { IsInner C.least children.new.items }
    ensures ok { IfOk result (Adds (16 * C.least) (inner_of children.old.items) (inner_of children.new.items) word) }
    ensures err { OnErr result (inner_of children.new.items ≡ inner_of children.old.items) }
{
    let at = child_for(children.as_slice(), word);
    match children[at].node().with(alloc, word)? {
        Grown::Same => Ok(Change::Same),
        Grown::New(first, second) => {
            let (first, second) = adopted(first, second);
            if put(children, at, first, second)? {
                Ok(Change::Changed)
            } else {
                Ok(Change::Unable)
            }
        }
    }
}

/// Puts a word into shared children, where they have one owner.
pub(crate) fn insert_owned<C: Level>(
    children: &mut Arc<Vec<Child<C>>>,
    alloc: Global,
    word: u32,
) -> Result<Change, AllocError>
    requires inner { IsInner C.least (items_of children.old) }
    requires word { word < WORD_LIMIT }
    ensures inner { IsInner C.least (items_of children.new) }
    ensures ok { IfOk result (Adds (16 * C.least) (inner_of (items_of children.old))
        (inner_of (items_of children.new)) word) }
    ensures err { OnErr result (inner_of (items_of children.new) ≡ inner_of (items_of children.old)) }
{
    let Some(children) = Arc::get_mut(children) else {
        return Ok(Change::Unable);
    };
    match insert_below(children, alloc, word)? {
        Change::Unable => replace_below(children, alloc, word),
        change => Ok(change),
    }
}

// Takes a word out of the child that it goes out of.
fn remove_below<C: Level>(
    children: &mut Vec<Child<C>>,
    alloc: Global,
    word: u32,
) -> Result<Change, AllocError>
    requires inner { IsInner C.least children.old.items }
    requires word { word < WORD_LIMIT }
    ensures inner { IsInner C.least children.new.items }
    ensures same_size { length children.new.items ≡ length children.old.items }
    ensures ok { IfOk result (Takes (16 * C.least) (inner_of children.old.items) (inner_of children.new.items) word) }
    ensures err { OnErr result (inner_of children.new.items ≡ inner_of children.old.items) }
{
    let at = child_for(children.as_slice(), word);
    let child = &mut children[at];
    if child.node().size() <= FEWEST {
        return Ok(Change::Unable);
    }
    child.remove(alloc, word)
}

// The same where the child cannot do it: it is replaced, or joined with a neighbour where it becomes too small.
fn mend_below<C: Level>(
    children: &mut Vec<Child<C>>,
    alloc: Global,
    word: u32,
) -> Result<Change, AllocError>
    requires inner { IsInner C.least children.old.items }
    requires word { word < WORD_LIMIT }
    requires enough { 2 ≤ length children.old.items }
    ensures inner { IsInner C.least children.new.items }
    ensures size { length children.old.items ≤ length children.new.items + 1 }
    ensures ok { IfOk result (Takes (16 * C.least) (inner_of children.old.items) (inner_of children.new.items) word) }
    ensures err { OnErr result (inner_of children.new.items ≡ inner_of children.old.items) }
{
    let at = child_for(children.as_slice(), word);
    match children[at].node().without(alloc, word)? {
        None => Ok(Change::Same),
        Some(node) => {
            let list = mended(alloc, children.as_slice(), at, node)?;
            *children = list;
            Ok(Change::Changed)
        }
    }
}

/// Takes a word out of shared children, where they have one owner. They never become fewer than `fewest`.
pub(crate) fn remove_owned<C: Level>(
    children: &mut Arc<Vec<Child<C>>>,
    alloc: Global,
    word: u32,
    fewest: usize,
) -> Result<Change, AllocError>
    requires inner { IsInner C.least (items_of children.old) }
    requires word { word < WORD_LIMIT }
    requires some { 1 ≤ fewest }
    requires enough { fewest ≤ length (items_of children.old) }
    ensures inner { IsInner C.least (items_of children.new) }
    ensures fewest { fewest ≤ length (items_of children.new) }
    ensures ok { IfOk result (Takes (16 * C.least) (inner_of (items_of children.old))
        (inner_of (items_of children.new)) word) }
    ensures err { OnErr result (inner_of (items_of children.new) ≡ inner_of (items_of children.old)) }
{
    let Some(children) = Arc::get_mut(children) else {
        return Ok(Change::Unable);
    };
    match remove_below(children, alloc, word)? {
        Change::Unable => {
            if children.len() <= fewest {
                return Ok(Change::Unable);
            }
            mend_below(children, alloc, word)
        }
        change => Ok(change),
    }
}

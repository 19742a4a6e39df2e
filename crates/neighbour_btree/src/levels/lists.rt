//! Lists of children.
ghost use Rattle.std.specs.Prelude.{◌≡◌, ◌≤◌, ◌+◌, ◌++◌, ◌∷◌, length, option_to_list, IfOk, OnOk};
ghost use Rattle.neighbour_btree.specs.Lists.{replacement};

use crate::levels::child::Child;
use crate::levels::level::Level;
use std::alloc::{AllocError, Global};

/// Puts other owners of these children after a list.
pub(crate) fn share_all<C: Level>(
    list: &mut Vec<Child<C>>,
    children: &[Child<C>],
) -> Result<(), AllocError>
    ensures { OnOk result (list.new.items ≡ list.old.items ++ children.now) }
{
    list.reserve(children.len())?;
    for child in children {
        list.push_reserved(child.share()?);
    }
    Ok(())
}

fn push_both<C: Level>(
    list: &mut Vec<Child<C>>,
    first: Child<C>,
    second: Option<Child<C>>,
) -> Result<(), AllocError>
    ensures { OnOk result (list.new.items ≡ list.old.items ++ (first ∷ option_to_list second)) }
{
    list.push(first)?;
    match second {
        None => Ok(()),
        Some(second) => {
            list.push(second)?;
            Ok(())
        }
    }
}

/// Other owners of these children, of which `taken` from a place on are replaced.
pub(crate) fn with_replaced<C: Level>(
    alloc: Global,
    children: &[Child<C>],
    at: usize,
    taken: usize,
    pair: (Child<C>, Option<Child<C>>),
) -> Result<Vec<Child<C>>, AllocError>
    requires { at + taken ≤ length children.now }
    ensures { IfOk result (λ list. list.items ≡ replacement children.now at taken pair.0 pair.1) }
{
    let (first, second) = pair;
    let mut list = Vec::with_capacity(alloc, children.len().saturating_add(1))?;
    share_all(&mut list, &children[..at])?;
    push_both(&mut list, first, second)?;
    share_all(&mut list, &children[at + taken..])?;
    Ok(list)
}

/// Other owners of the children of two lists.
pub(crate) fn concatenated<C: Level>(
    alloc: Global,
    left: &[Child<C>],
    right: &[Child<C>],
) -> Result<Vec<Child<C>>, AllocError>
    ensures { IfOk result (λ list. list.items ≡ left.now ++ right.now) }
{
    let mut list = Vec::with_capacity(alloc, left.len().saturating_add(right.len()))?;
    share_all(&mut list, left)?;
    share_all(&mut list, right)?;
    Ok(list)
}

//! What the versions of one epoch have in common.
ghost use Rattle.std.specs.Prelude.{◌≡◌, ◌<◌, [], ◌∷◌, ◌++◌, length, Some, None, IfOk};
ghost use Rattle.past_model.specs.declared.limits.TheConstants.{MOST_EPOCHS};
ghost use Rattle.version.specs.Ground.{ground};

use crate::log::Mark;
use crate::marks::Marks;
use shard_table::Table;
use std::alloc::{AllocError, Global};
use std::marker::Model;

/// What an epoch began with: the shards of its base, and a mark of each epoch before it.
#[derive(Drop)]
pub struct Epoch {
    // None is the base without an edge.
    base: Option<Table>,
    marks: Marks,
}

impl Model for Epoch {
    ghost use Rattle.version.specs.Ground.{Ground, ground};

    ghost Value = { Ground };

    ghost view = { λ e. ground e.base e.marks };
}

impl Epoch {
    /// The first one. It takes no memory.
    pub(crate) fn first(alloc: Global) -> Epoch
        ensures { result ≡ ground None [] }
    {
        Epoch {
            base: None,
            marks: Marks::empty(alloc),
        }
    }

    /// A first one with these shards as its base. It takes no memory.
    pub(crate) fn based(alloc: Global, base: Table) -> Epoch
        ensures { result ≡ ground (Some base) [] }
    {
        Epoch {
            base: Some(base),
            marks: Marks::empty(alloc),
        }
    }

    /// How many epochs ended before it.
    pub(crate) fn number(&self) -> u64
        ensures { result ≡ length self.now.marks }
    {
        self.marks.len()
    }

    /// The one after it: these shards are its base, and this is the mark of the log that ends.
    pub(crate) fn next(&self, alloc: Global, base: Table, mark: Mark) -> Result<Epoch, AllocError>
        requires { length self.now.marks < MOST_EPOCHS }
        ensures { IfOk result (λ next. next ≡ ground (Some base) (self.now.marks ++ mark ∷ [])) }
    {
        Ok(Epoch {
            base: Some(base),
            marks: self.marks.with(alloc, mark)?,
        })
    }
}

//! The marks of ended epochs.
ghost use Rattle.std.specs.Prelude.{◌≡◌, ◌<◌, [], ◌∷◌, ◌++◌, length, IfOk};
ghost use Rattle.past_model.specs.declared.limits.TheConstants.{MOST_EPOCHS};

use crate::chunks::{Chunks, shared_list, with_chunk};
use crate::log::Mark;
use std::alloc::{AllocError, Global};
use std::marker::Model;
use std::sync::Arc;

// How many marks a full chunk has.
const CHUNK: usize = 256;

/// A mark of each epoch that ended, in order. Epochs share the chunks that they have in common, so that a rebase after
/// any number of others copies less than one chunk, and the list of chunks where one becomes full.
#[derive(Drop)]
pub struct Marks {
    full: Chunks<Mark>,
    // What comes after the full chunks.
    last: Vec<Mark>,
    len: u64,
}

impl Model for Marks {
    ghost use Rattle.std.specs.Prelude.{◌≡◌, ℕ, List, length};
    ghost use Rattle.past_model.specs.Shared.{shared_items};
    ghost use Rattle.version.specs.Chunks.{items_of};

    ghost Value = { List (List ℕ) };

    ghost view = { λ m. items_of (shared_items m.full) m.last.items };

    ghost invariant = { λ m. m.len ≡ length (items_of (shared_items m.full) m.last.items) };
}

impl Marks {
    /// No mark. It takes no memory.
    pub(crate) fn empty(alloc: Global) -> Marks
        ensures { result ≡ [] }
    {
        Marks {
            full: None,
            last: Vec::new(alloc),
            len: 0,
        }
    }

    /// How many there are.
    pub(crate) fn len(&self) -> u64
        ensures { result ≡ length self.now }
    {
        self.len
    }

    /// These and one more. These stay.
    pub(crate) fn with(&self, alloc: Global, mark: Mark) -> Result<Marks, AllocError>
        requires { length self.now < MOST_EPOCHS }
        ensures { IfOk result (λ marks. marks ≡ self.now ++ mark ∷ []) }
    {
        let mut last = Vec::with_capacity(alloc, self.last.len().saturating_add(1))?;
        last.extend_from_slice(&self.last)?;
        last.push(mark)?;
        let len = self.len + 1;
        if last.len() < CHUNK {
            let full = shared_list(&self.full)?;
            return Ok(Marks { full, last, len });
        }
        let full = with_chunk(alloc, &self.full, Arc::new(alloc, last)?)?;
        Ok(Marks {
            full: Some(full),
            last: Vec::new(alloc),
            len,
        })
    }
}

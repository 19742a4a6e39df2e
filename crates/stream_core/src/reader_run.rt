//! What a reader does at the moment.
ghost use Rattle.std.specs.Prelude.{◌≡◌, ℕ, IfOk, OnErr};

use crate::lend::lent_from;
use crate::version_shards::VersionShards;
use history::Known;
use std::alloc::{AllocError, Global};
use store_model::Reply;

/// A reader's run: the version that it pinned, by the history's token and its shards, the vertex, how many of its
/// neighbours it was lent, and whether a lend answered the end. It needs no log, so a rebase leaves it as it is.
#[derive(Drop)]
pub(crate) struct ReaderRun {
    pub known: Known,
    pub vertex: u32,
    pub place: usize,
    pub ended: bool,
    pub table: VersionShards,
}

impl ReaderRun {
    ghost use Rattle.stream_core.specs.Runs.{IsLendable, IsLent};

    /// Lends the next words, copied, or says that all were lent. After an error nothing is changed.
    pub(crate) fn lend(&mut self, alloc: Global) -> Result<Reply, AllocError>
        requires { IsLendable self.old }
        ensures ok { IfOk result (λ reply. (n : ℕ) → IsLent n self.old reply self.new) }
        ensures err { OnErr result (self.new ≡ self.old) }
    {
        match lent_from(self.table.shards(), self.vertex, self.place) {
            None => {
                self.ended = true;
                Ok(Reply::End)
            }
            Some(slice) => {
                let words = Vec::from_slice(alloc, slice)?;
                self.place += words.len();
                Ok(Reply::Slice(words))
            }
        }
    }
}

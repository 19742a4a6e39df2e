//! What edits did.
ghost use Rattle.std.specs.Prelude.{◌≡◌, ◌+◌, ◌^◌, ◌<◌};

/// What edits did to the edges.
#[derive(Clone, Copy, Debug, PartialEq, Eq)]
pub struct Counts {
    /// How many edges there are since then that were not there before.
    pub added: u64,
    /// How many edges there were before that are not there since then.
    pub removed: u64,
}

impl Counts {
    /// Nothing was done.
    pub const NONE: Counts = Counts {
        added: 0,
        removed: 0,
    };

    /// About how many words there are after it, where there were so many before.
    pub(crate) fn words_after(self, words: usize) -> usize {
        words
            .saturating_add(self.added as usize)
            .saturating_sub(self.removed as usize)
    }

    /// What was done in two parts of a graph together.
    pub fn plus(self, more: Counts) -> Counts
        requires added { self.added + more.added < 2 ^ 64 }
        requires removed { self.removed + more.removed < 2 ^ 64 }
        ensures { result ≡ record { added = self.added + more.added; removed = self.removed + more.removed } }
    {
        Counts {
            added: self.added + more.added,
            removed: self.removed + more.removed,
        }
    }
}

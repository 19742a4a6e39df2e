//! A vertex's neighbours, slice by slice.
ghost use Rattle.std.specs.Prelude.{◌≡◌, ◌<◌, ◌≤◌, ◌++◌, ℕ, [], length, drop, Some, None, MatchOption};
ghost use Rattle.past_model.specs.declared.limits.TheConstants.{MOST_VERTICES};
ghost use Rattle.graph_model.specs.Graph.{Graph, neighbours};
ghost use Rattle.past_model.specs.Past.{Past};
ghost use Rattle.handle_model.specs.Calls.{IsLend};
ghost use Rattle.shards.specs.Part.{row_at};
ghost use Rattle.shard_table.specs.Table.{IsShardOf};

use crate::place::place_of;
use shards::{Shard, Targets};
use std::marker::Model;

/// A vertex's neighbours, lent in slices. A slice lives as long as the shards, and not as long as the
/// cursor. How the list is cut into slices is left open.
#[derive(Drop)]
pub struct Cursor<'a> {
    // None is the cursor of a vertex outside, and one that has reported its end.
    targets: Option<Targets<'a>>,
}

impl<'a> Model for Cursor<'a> {
    ghost use Rattle.std.specs.Prelude.{List, ℕ};
    ghost use Rattle.cursors.specs.Cursor.{left_of};

    ghost Value = { List ℕ };

    ghost view = { λ c. left_of c.targets };
}

impl<'a> Cursor<'a> {
    // Of no vertex.
    fn of_none() -> Cursor<'a>
        ensures { result ≡ [] }
    {
        Cursor { targets: None }
    }

    /// The list of one vertex of a shard, where `vertex` counts from the range's first.
    pub fn of(shard: &'a Shard, vertex: u8) -> Cursor<'a>
        requires { vertex < length shard.now.rows }
        ensures { result ≡ row_at shard.now vertex }
    {
        Cursor {
            targets: Some(shard.targets(vertex)),
        }
    }

    /// The neighbours of a vertex, where this is the shard in which they stand. A vertex outside has none.
    pub fn over(shard: Option<&'a Shard>, vertex: u32) -> Cursor<'a>
        ensures { (g : Graph) → IsShardOf g vertex shard.entry → result ≡ neighbours g vertex }
    {
        match place_of(shard, u64::from(vertex)) {
            Some((shard, place)) => Cursor::of(shard, place),
            None => Cursor::of_none(),
        }
    }

    /// The neighbours of a vertex from a place on, both by 64-bit numbers, of which none is cut. A vertex
    /// outside has none.
    pub fn from_place(shard: Option<&'a Shard>, vertex: u64, first: u64) -> Cursor<'a>
        ensures left { (g : Graph) → IsShardOf g vertex shard.entry → result ≡ drop first (neighbours g vertex) }
        ensures small { length result ≤ MOST_VERTICES }
    {
        match place_of(shard, vertex) {
            Some((shard, own)) => {
                let targets = shard.targets(own);
                let count = first.min(u64::from(targets.count()));
                Cursor {
                    targets: Some(targets.skip(count as u32)),
                }
            }
            None => Cursor::of_none(),
        }
    }

    /// How many neighbours are left.
    pub fn left(&self) -> u32
        ensures value { result ≡ length self.now }
        ensures small { result ≤ MOST_VERTICES }
    {
        match &self.targets {
            Some(targets) => targets.count(),
            None => 0,
        }
    }

    /// What is left after so many neighbours. If none is left out, nothing is looked at.
    pub fn skip(self, count: u32) -> Cursor<'a>
        ensures { result ≡ drop count self.entry }
    {
        if count == 0 {
            return self;
        }
        match self.targets {
            Some(targets) => Cursor {
                targets: Some(targets.skip(count)),
            },
            None => Cursor::of_none(),
        }
    }

    /// The next slice of what is left, which has a target at least. It is `None` at the end alone. Of a reader's run in
    /// the core of a store, whatever its version and vertex, it is one lend.
    pub fn next_slice(&mut self) -> Option<&'a [u32]>
        ensures lent { MatchOption result
            ((self.old ≡ []) × (self.new ≡ []))
            (λ slice. (0 < length slice.now) × (self.old ≡ slice.now ++ self.new)) }
        ensures event { (past : Past) (vertex : ℕ) → MatchOption result
            (IsLend past vertex self.old None self.new)
            (λ slice. IsLend past vertex self.old (Some slice.now) self.new) }
    {
        self.lend()
    }

    // The next slice.
    fn lend(&mut self) -> Option<&'a [u32]>
        ensures { MatchOption result
            ((self.old ≡ []) × (self.new ≡ []))
            (λ slice. (0 < length slice.now) × (self.old ≡ slice.now ++ self.new)) }
    {
        let targets = self.targets.as_mut()?;
        let slice = targets.next_slice();
        if slice.is_none() {
            // From now on the end is reported without a look at the list.
            self.targets = None;
        }
        slice
    }
}

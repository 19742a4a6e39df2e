//! The batch in work.
ghost use Rattle.std.specs.Prelude.{◌≡◌, ◌<◌, [], length, replicate, IfOk, OnOk, OnErr};
ghost use Rattle.std.specs.List.{AllByRecursion};
ghost use Rattle.store_model.specs.Core.{range_of};
ghost use Rattle.stream_core.specs.Work.{lists_of, AreLeft};

use crate::version_shards::VersionShards;
use past_model::{Edit, Entry, RANGE_VERTICES};
use std::alloc::{AllocError, Global};
use std::marker::Model;

/// A batch in work: its ranges that are done, and the shards as far as they are edited.
#[derive(Drop)]
pub(crate) struct Held {
    entry: Entry,
    done: Vec<u32>,
    table: VersionShards,
    // The edits that are left to do, by range, so that an event takes only those of its own range.
    left: Vec<Vec<Edit>>,
}

impl Model for Held {
    ghost use Rattle.stream_core.specs.Work.{Work, lists_of, AreLeft};

    ghost Value = { Work };

    ghost view = { λ h. record { entry = h.entry; done = h.done.items; parts = h.table } };

    ghost invariant = { λ h. AreLeft h.entry.batch h.done.items (lists_of h.left.items) };
}

impl Held {
    ghost use Rattle.store_model.specs.Core.{is_open, is_whole};
    ghost use Rattle.stream_core.specs.Work.{holding_of, IsEditable, IsWorkAfter};

    /// A batch of which nothing is done, and the shards that it is to edit. It fails where there is no memory for the edits by
    /// their ranges.
    pub(crate) fn begin(
        alloc: Global,
        entry: Entry,
        table: VersionShards,
    ) -> Result<Held, AllocError>
        requires { AllByRecursion (λ e. range_of e < length table) entry.batch }
        ensures { IfOk result (λ held. held ≡ record { entry = entry; done = []; parts = table }) }
    {
        let left = edits_by_range(alloc, table.shards().len(), entry.batch.edits())?;
        Ok(Held {
            entry,
            done: Vec::new(alloc),
            table,
            left,
        })
    }

    /// The batch, and the feed that it came by.
    pub(crate) fn entry(&self) -> &Entry
        ensures { result.now ≡ self.now.entry }
    {
        &self.entry
    }

    /// Puts the shards in the place of those that were published before.
    pub(crate) fn show(self, published: &mut VersionShards)
        ensures { published.new ≡ self.parts }
    {
        *published = self.table;
    }

    /// Whether a range is still to be done.
    pub(crate) fn is_open(&self, range: u32) -> bool
        ensures { result ≡ is_open (holding_of self.now) range }
    {
        match self.left.get(range as usize) {
            Some(edits) => !edits.is_empty(),
            None => false,
        }
    }

    /// Whether each range that the batch edits is done.
    pub(crate) fn is_whole(&self) -> bool
        ensures { result ≡ is_whole (holding_of self.now) }
    {
        self.left.iter().all(|edits| edits.is_empty())
    }

    /// Does the edits of a range that is open. After an error nothing is changed.
    pub(crate) fn apply(&mut self, alloc: Global, range: u32) -> Result<(), AllocError>
        requires { IsEditable range self.old }
        ensures ok { OnOk result (IsWorkAfter range self.old self.new) }
        ensures err { OnErr result (self.new ≡ self.old) }
    {
        let shard = self.table.edited(alloc, range, &self.left[range as usize])?;
        self.done.push(range)?;
        self.table.set(range, shard);
        self.left[range as usize] = Vec::new(alloc);
        Ok(())
    }
}

// The edits of each of so many ranges, found by one pass over the edits.
fn edits_by_range(alloc: Global, count: usize, edits: &[Edit]) -> Result<Vec<Vec<Edit>>, AllocError>
    requires { AllByRecursion (λ e. range_of e < count) edits.now }
    ensures { IfOk result (λ lists. AreLeft edits.now [] (lists_of lists.items)) }
{
    let mut lists = empty_lists(alloc, count)?;
    for edit in edits {
        let range = edit.source() / RANGE_VERTICES;
        lists[range as usize].push(*edit)?;
    }
    Ok(lists)
}

// So many lists without an edit.
fn empty_lists(alloc: Global, count: usize) -> Result<Vec<Vec<Edit>>, AllocError>
    ensures { IfOk result (λ lists. lists_of lists.items ≡ replicate count []) }
{
    let mut lists = Vec::with_capacity(alloc, count)?;
    for _ in 0..count {
        lists.push(Vec::new(alloc))?;
    }
    Ok(lists)
}

//! The shards of a graph, in blocks that tables share.
ghost use Rattle.std.specs.Prelude.{◌≡◌, ◌+◌, ◌<◌, ◌≤◌, ℕ, length, map, IsTrue, IfOk, MatchOption};
ghost use Rattle.std.specs.Arc.{arc_value};
ghost use Rattle.past_model.specs.declared.home.Home.TheVariants.{Block as InBlock};
ghost use Rattle.past_model.specs.declared.limits.TheConstants.{MOST_VERTICES, MOST_RANGES};
ghost use Rattle.graph_model.specs.Graph.{Graph, empty_graph};
ghost use Rattle.shards.specs.Arrays.{AreLists, first_home, list_of};
ghost use Rattle.shard_table.specs.Arrays.{AreListsOf};
ghost use Rattle.shards.specs.Pages.{AreFull};
ghost use Rattle.shard_table.specs.Blocks.{parts_in, sizes_of};
ghost use Rattle.shards.specs.Part.{AreEditsOf};
ghost use Rattle.shard_table.specs.Made.{IsBatch, IsMade, AreMade, IsNoneBelow};
ghost use Rattle.shard_table.specs.Table.{IsTable, IsOfGraph, IsShardOf, AreAfter, AreMoved, part_at, parts_of, home_in};

use crate::arrays::shards_of_lists;
use crate::block::{Block, EditedShards};
use crate::letting_go::let_go_each;
use crate::shard_list::{empty_shards, share_shards};
use crate::width::Width;
use past_model::{Edit, Home, RANGE_VERTICES};
use shards::{Counts, EditedShard, Groups, Scratch, Shard, SortedLists};
use std::alloc::{AllocError, Global};
use std::marker::Model;
use std::sync::Arc;
use std::thread::Threads;

/// The shards of a graph, one for each range. A table after a batch shares with the one before each
/// block of shards in which nothing is edited, and each shard that is not. It never changes after it was
/// made.
pub struct Table {
    blocks: Vec<Arc<Block>>,
    count: usize,
    // How many shards each block has but for the last.
    width: Width,
}

impl Drop for Table {
    // Written out, so that crates above prove a call here, and not the drop of each part.
    fn drop(self) {
        let Table {
            blocks: _blocks,
            count: _count,
            width: _,
        } = self;
    }
}

impl Model for Table {
    ghost use Rattle.std.specs.Prelude.{◌≡◌, List, length};
    ghost use Rattle.shards.specs.Part.{Part};
    ghost use Rattle.shards.specs.Pages.{AreFull};
    ghost use Rattle.shard_table.specs.Blocks.{parts_in, sizes_of, AreHoused};

    ghost Value = { List Part };

    ghost view = { λ t. parts_in t.blocks.items };

    ghost invariant = { λ t. AreFull t.width.shards (sizes_of t.blocks.items)
        × (t.count ≡ length (parts_in t.blocks.items))
        × AreHoused (parts_in t.blocks.items) };
}

/// Whether the next edited shard, if there is one, is of no range below `end`.
fn is_past(made: &[&EditedShard], next: usize, end: usize) -> bool
    ensures past { IsTrue result → IsNoneBelow made.now next end }
    ensures within { IsNoneBelow made.now next end → IsTrue result }
{
    next >= made.len() || made[next].range() as usize >= end
}

/// Blocks of these shards, each of so many but for the last.
fn blocks_of(
    alloc: Global,
    shards: &[Arc<Shard>],
    width: usize,
) -> Result<Vec<Arc<Block>>, AllocError>
    requires some { 0 < width }
    requires small { width ≤ 1024 }
    ensures parts { IfOk result (λ blocks. parts_in blocks.items ≡ parts_of shards.now) }
    ensures full { IfOk result (λ blocks. AreFull width (sizes_of blocks.items)) }
{
    let mut blocks = Vec::new(alloc);
    for number in 0..shards.len().div_ceil(width) {
        let first = width * number;
        let behind = shards.len().min(first + width);
        let own = share_shards(alloc, &shards[first..behind])?;
        blocks.push(Arc::new(alloc, Block::of(own))?)?;
    }
    Ok(blocks)
}

// Other owners of these blocks.
fn shared(alloc: Global, blocks: &[Arc<Block>]) -> Result<Vec<Arc<Block>>, AllocError>
    ensures { IfOk result (λ copy. map arc_value copy.items ≡ map arc_value blocks.now) }
{
    let mut copy = Vec::with_capacity(alloc, blocks.len())?;
    for block in blocks {
        copy.push(Arc::try_clone(block)?)?;
    }
    Ok(copy)
}

impl Table {
    /// The table of a graph of so many vertices without an edge, each at home in its block.
    pub fn empty(alloc: Global, vertex_count: u32) -> Result<Table, AllocError>
        requires some { 1 ≤ vertex_count }
        requires most { vertex_count ≤ MOST_VERTICES }
        ensures table { IfOk result (λ table. IsTable (empty_graph vertex_count) table) }
        ensures homes { IfOk result (λ table. (v : ℕ) → home_in table v ≡ InBlock) }
    {
        let shards = empty_shards(alloc, vertex_count)?;
        let count = shards.len();
        let width = Width::of(count);
        let blocks = blocks_of(alloc, &shards, width.shards)?;
        Ok(Table {
            blocks,
            count,
            width,
        })
    }

    /// The table of a graph of so many vertices whose lists are in sorted arrays. Each list is in the home to which its degree
    /// leads from a block.
    pub fn of_lists(
        alloc: Global,
        vertex_count: u32,
        starts: &[u64],
        targets: &[u32],
    ) -> Result<Table, AllocError>
        requires some { 1 ≤ vertex_count }
        requires most { vertex_count ≤ MOST_VERTICES }
        requires count { length starts.now ≡ vertex_count + 1 }
        requires lists { AreLists starts.now targets.now }
        ensures table { IfOk result (λ table. (g : Graph) → AreListsOf g starts.now targets.now → IsTable g table) }
        ensures homes { IfOk result (λ table. (v : ℕ) → v < vertex_count
            → home_in table v ≡ first_home (list_of starts.now targets.now v)) }
        ensures outside { IfOk result (λ table. (v : ℕ) → vertex_count ≤ v → home_in table v ≡ InBlock) }
    {
        let shards = shards_of_lists(alloc, vertex_count, SortedLists { starts, targets })?;
        let count = shards.len();
        let width = Width::of(count);
        let blocks = blocks_of(alloc, &shards, width.shards)?;
        Ok(Table {
            blocks,
            count,
            width,
        })
    }

    // The shard of a range, if there is one.
    fn shard_at(&self, range: usize) -> Option<&Shard>
        ensures { MatchOption result (length self.now ≤ range)
            (λ shard. (range < length self.now) × (shard.now ≡ part_at self.now range)) }
    {
        let number = self.width.block_of(range);
        let place = self.width.place_of(range);
        let block: &Block = self.blocks.get(number)?;
        let shard: &Shard = block.shards().get(place)?;
        Some(shard)
    }

    /// The shard in which a vertex's list stands. A vertex past the last range has none.
    pub fn shard_of(&self, vertex: u64) -> Option<&Shard>
        ensures { (g : Graph) → IsTable g self.now → IsShardOf g vertex result }
    {
        let shard = self.shard_at((vertex / u64::from(RANGE_VERTICES)) as usize)?;
        Some(shard)
    }

    /// The home of a vertex's list. A vertex outside has an empty one, in its block.
    pub fn home(&self, vertex: u64) -> Home
        ensures { result ≡ home_in self.now vertex }
    {
        let Some(shard) = self.shard_at((vertex / u64::from(RANGE_VERTICES)) as usize) else {
            return Home::Block;
        };
        let place = (vertex % u64::from(RANGE_VERTICES)) as u16;
        if place < shard.vertex_count() {
            shard.home(place as u8)
        } else {
            Home::Block
        }
    }

    /// How many shards it has.
    pub fn count(&self) -> usize
        ensures { result ≡ length self.now }
    {
        self.count
    }

    /// How many vertices the graph has.
    pub fn vertex_count(&self) -> u32
        requires { IsOfGraph self.now }
        ensures { (g : Graph) → IsTable g self.now → result ≡ g.vertex_count }
    {
        let Some(last) = self.count.checked_sub(1) else {
            return 0;
        };
        let Some(shard) = self.shard_at(last) else {
            unreachable!()
        };
        RANGE_VERTICES * last as u32 + u32::from(shard.vertex_count())
    }

    /// The shard of a range after edits of its vertices, to vertices that a graph may have, made in space that is lent. The
    /// table stays.
    pub fn edit(
        &self,
        alloc: Global,
        range: usize,
        edits: &[Edit],
        scratch: &mut Scratch,
    ) -> Result<EditedShard, AllocError>
        requires range { range < length self.now }
        requires edits { AreEditsOf (part_at self.now range) edits.now }
        ensures { IfOk result (λ made. IsMade (part_at self.now range) edits.now made) }
    {
        let Some(shard) = self.shard_at(range) else {
            unreachable!()
        };
        let made = EditedShard::of(alloc, shard, edits, scratch)?;
        Ok(made)
    }

    /// The table after a batch, with each shard that is edited put in at its range, and what the batch did. This
    /// one stays. It takes a step for each block, and copies the blocks in which something is edited.
    pub fn with(
        &self,
        alloc: Global,
        groups: &Groups<'_>,
        made: &[&EditedShard],
    ) -> Result<(Table, Counts), AllocError>
        requires batch { IsBatch groups.now self.now }
        requires made { AreMade groups.now 0 self.now made.now }
        requires few { length made.now ≤ MOST_RANGES }
        ensures after { IfOk result (λ new. AreAfter groups.now.edits self.now new.0 new.1) }
        ensures homes { IfOk result (λ new. AreMoved self.now new.0) }
    {
        let mut blocks = Vec::with_capacity(alloc, self.blocks.len())?;
        let batch = EditedShards { groups, made };
        let mut counts = Counts::NONE;
        let mut next = 0;
        for (number, block) in self.blocks.iter().enumerate() {
            let first = self.width.shards * number;
            let behind = first + block.shards().len();
            if is_past(made, next, behind) {
                blocks.push(Arc::try_clone(block)?)?;
                continue;
            }
            let (edited, more) = block.with(alloc, first, batch, &mut next)?;
            blocks.push(Arc::new(alloc, edited)?)?;
            counts = counts.plus(more);
        }
        let count = self.count;
        let width = self.width;
        Ok((
            Table {
                blocks,
                count,
                width,
            },
            counts,
        ))
    }

    /// Another table of the same shards. It copies the list of blocks alone.
    pub fn share(&self, alloc: Global) -> Result<Table, AllocError>
        ensures { IfOk result (λ table. table ≡ self.now) }
    {
        let blocks = shared(alloc, &self.blocks)?;
        let count = self.count;
        let width = self.width;
        Ok(Table {
            blocks,
            count,
            width,
        })
    }

    // The shards of its blocks that no other table has, dealt in turn to so many lists.
    fn dealt(self, alloc: Global, hands: usize) -> Result<Vec<Vec<Arc<Shard>>>, AllocError>
        requires some { 0 < hands }
        ensures { IfOk result (λ lists. length lists.items ≡ hands) }
    {
        let Table {
            blocks,
            count,
            width: _,
        } = self;
        let mut lists = Vec::with_capacity(alloc, hands)?;
        for _ in 0..hands {
            lists.push(Vec::with_capacity(alloc, count.div_ceil(hands))?)?;
        }
        let mut next = 0;
        for block in blocks {
            let Some(block) = Arc::into_inner(block) else {
                continue;
            };
            for shard in block.into_shards() {
                lists[next].push(shard)?;
                next = (next + 1) % hands;
            }
        }
        Ok(lists)
    }

    /// Drops the table. The shards that no other table has are dealt in turn to so many threads. This thread drops all of them if
    /// fewer than two threads are asked for or there is no memory to deal them, and the part of a thread that cannot be started.
    pub fn let_go<R: Threads>(self, rt: &R, alloc: Global, hands: usize) {
        if hands < 2 {
            return;
        }
        if let Ok(lists) = self.dealt(alloc, hands) {
            let_go_each(rt, lists);
        }
    }
}

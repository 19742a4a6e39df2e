//! The shards of a version.
ghost use Rattle.std.specs.Prelude.{◌≡◌, ◌<◌, ◌≤◌, length, slice_set, IfOk};
ghost use Rattle.std.specs.Arc.{arc_value};
ghost use Rattle.past_model.specs.declared.limits.TheConstants.{MOST_VERTICES};
ghost use Rattle.graph_model.specs.Graph.{empty_graph};
ghost use Rattle.shards.specs.Part.{AreEditsOf, IsPartAfter};
ghost use Rattle.shard_table.specs.Table.{IsTable, parts_of, part_at};

use past_model::Edit;
use shard_table::{empty_shards, share_shards};
use shards::Shard;
use std::alloc::{AllocError, Global};
use std::marker::Model;
use std::sync::Arc;

/// The shards of a graph, one for each range. Tables share their shards.
#[derive(Drop)]
pub(crate) struct VersionShards {
    shards: Vec<Arc<Shard>>,
}

impl Model for VersionShards {
    ghost use Rattle.std.specs.Prelude.{List};
    ghost use Rattle.shards.specs.Part.{Part};
    ghost use Rattle.shard_table.specs.Table.{parts_of};

    ghost Value = { List Part };

    ghost view = { λ t. parts_of t.shards.items };
}

impl VersionShards {
    /// The table of a graph of so many vertices without an edge.
    pub(crate) fn empty(alloc: Global, vertex_count: u32) -> Result<VersionShards, AllocError>
        requires some { 1 ≤ vertex_count }
        requires most { vertex_count ≤ MOST_VERTICES }
        ensures { IfOk result (λ table. IsTable (empty_graph vertex_count) table) }
    {
        let shards = empty_shards(alloc, vertex_count)?;
        Ok(VersionShards { shards })
    }

    /// Another table of the same shards.
    pub(crate) fn share(&self, alloc: Global) -> Result<VersionShards, AllocError>
        ensures { IfOk result (λ table. table ≡ self.now) }
    {
        let shards = share_shards(alloc, &self.shards)?;
        Ok(VersionShards { shards })
    }

    /// The shards, by their ranges.
    pub(crate) fn shards(&self) -> &[Arc<Shard>]
        ensures { parts_of result.now ≡ self.now }
    {
        &self.shards
    }

    /// The shard of a range after edits that are of it. The table stays. It fails where there is no memory for the shard.
    pub(crate) fn edited(
        &self,
        alloc: Global,
        range: u32,
        own: &[Edit],
    ) -> Result<Arc<Shard>, AllocError>
        requires inside { range < length self.now }
        requires own { AreEditsOf (part_at self.now range) own.now }
        ensures { IfOk result (λ shard. IsPartAfter own.now (part_at self.now range) (arc_value shard)) }
    {
        let (shard, _) = self.shards[range as usize].apply(alloc, own)?;
        Ok(Arc::new(alloc, shard)?)
    }

    /// Puts a shard in the place of a range.
    pub(crate) fn set(&mut self, range: u32, shard: Arc<Shard>)
        requires { range < length self.old }
        ensures { self.new ≡ slice_set self.old range (arc_value shard) }
    {
        self.shards[range as usize] = shard;
    }
}

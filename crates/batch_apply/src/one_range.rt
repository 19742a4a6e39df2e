//! A batch whose edits are all of one range.
ghost use Rattle.std.specs.Prelude.{IfSome, IfOk};
ghost use Rattle.shard_table.specs.Table.{IsEditable, AreAfter, AreMoved};
ghost use Rattle.batch_apply.specs.Splits.{AreOfRange};

use crate::runs::run_length;
use past_model::{Edit, RANGE_VERTICES};
use shard_table::Table;
use shards::{Counts, Grouping, Groups, Scratch};
use std::alloc::{AllocError, Global};
use std::slice;
use workers::Gate;

/// The range of all of these edits. `None` if there is no edit, or if they are of several ranges.
pub(crate) fn only_range(edits: &[Edit]) -> Option<u32>
    ensures { IfSome result (λ range. AreOfRange range edits.now) }
{
    let first = edits.first()?;
    let range = first.source() / RANGE_VERTICES;
    if run_length(edits, range) < edits.len() {
        return None;
    }
    Some(range)
}

/// The table after edits that are all of this range, as the caller's thread makes it. The edits are taken where they lie,
/// and the one shard that is made is put in from where it stands.
pub(crate) fn edit_range<Ga: Gate>(
    alloc: Global,
    table: &Table,
    edits: &[Edit],
    range: u32,
    gate: &Ga,
) -> Result<(Table, Counts), AllocError>
    requires editable { IsEditable table.now edits.now }
    requires own { AreOfRange range edits.now }
    ensures after { IfOk result (λ next. AreAfter edits.now table.now next.0 next.1) }
    ensures homes { IfOk result (λ next. AreMoved table.now next.0) }
{
    let groups = Groups::of(alloc, Grouping::ByRange, table.count(), edits)?;
    let mut scratch = Scratch::new(alloc);
    gate.enter(range);
    let edited = table.edit(alloc, range as usize, edits, &mut scratch);
    gate.leave(range);
    let made = edited?;
    table.with(alloc, &groups, slice::from_ref(&&made))
}

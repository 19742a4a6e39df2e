//! A run of the array after a few edits of its vertex, each put in where it belongs.
ghost use Rattle.std.specs.Prelude.{◌≡◌, ◌+◌, ◌^◌, ◌<◌, ℕ, Bool, Some, filter, slice_set, IfOk};
ghost use Rattle.std.specs.List.{AllByRecursion};
ghost use Rattle.std.specs.List.Sorted.{IsNonDecreasingBy};
ghost use Rattle.graph_model.specs.Graph.{numbers_below};
ghost use Rattle.past_model.specs.Edits.{target_of};
ghost use Rattle.gapped_array.specs.Table.{IsOpen, list_at};
ghost use Rattle.word_sets.specs.declared.places.TheConstants.{WORD_LIMIT};
ghost use Rattle.shards.specs.Merge.{AreEditsFrom, IsMerged};
ghost use Rattle.shards.specs.Put.{IsPut};

use crate::counts::Counts;
use crate::merge::is_superseded;
use gapped_array::GappedArray;
use past_model::Edit;
use std::alloc::AllocError;

// Puts one edit into a run, and counts it if it changes the run.
fn put_edit(
    edit: &Edit,
    array: &mut GappedArray,
    run: u8,
    counts: &mut Counts,
) -> Result<(), AllocError>
    requires open { IsOpen array.old run }
    requires target { target_of edit.now < WORD_LIMIT }
    requires added { counts.old.added < 2 ^ 63 }
    requires removed { counts.old.removed < 2 ^ 63 }
    ensures put { IfOk result (λ _.
        IsPut edit.now (list_at array.old run) counts.old (list_at array.new run) counts.new) }
    ensures rest { IfOk result (λ _. array.new ≡ slice_set array.old run (Some (list_at array.new run))) }
{
    match edit {
        Edit::Insert(_, target) => {
            if array.insert(run, *target)? {
                counts.added += 1;
            }
        }
        Edit::Remove(_, target) => {
            if array.remove(run, *target) {
                counts.removed += 1;
            }
        }
    }
    Ok(())
}

/// Puts edits of its vertex, which ascend by their targets, into a run, and returns what they did. Of edits with the
/// same target the last one decides, and only that one is put in. All other runs are as they were.
pub(crate) fn put_edits_in_run(
    edits: &[Edit],
    array: &mut GappedArray,
    run: u8,
) -> Result<Counts, AllocError>
    requires open { IsOpen array.old run }
    requires sorted { IsNonDecreasingBy target_of edits.now }
    requires targets { AllByRecursion (λ e. target_of e < WORD_LIMIT) edits.now }
    ensures merged { IfOk result (λ counts. (u n : ℕ) (p : ℕ → Bool) → AreEditsFrom u n edits.now
        → list_at array.old run ≡ filter p (numbers_below n)
        → IsMerged edits.now u n p (list_at array.new run) counts) }
    ensures rest { IfOk result (λ _. array.new ≡ slice_set array.old run (Some (list_at array.new run))) }
{
    let mut counts = Counts::NONE;
    for (place, edit) in edits.iter().enumerate() {
        if !is_superseded(edits, place) {
            put_edit(edit, array, run, &mut counts)?;
        }
    }
    Ok(counts)
}

//! Stores, and the batches and rebases that change them.
ghost use Rattle.std.specs.Prelude.{◌≡◌, ◌≢◌, ◌<◌, Some};
ghost use Rattle.past_model.specs.declared.limits.TheConstants.{MOST_EDITS};
ghost use Rattle.past_model.specs.Past.{opening};
ghost use Rattle.version.specs.Version.{IsVertexCount};
ghost use Rattle.embedding.specs.declared.statuses.TheConstants.{DONE, NO_MEMORY, LENGTHS, TOO_MANY_EDITS, VERTEX_COUNT};
ghost use Rattle.embedding.specs.Holding.{OnStore, HoldsStore, HoldsVersion};
ghost use Rattle.embedding.specs.Batches.{IsAnswered, IsAppliedTo, IsRebasedTo, IsHandedOut};

use crate::edits::{Arrays, entry_of};
use crate::handle::{Handle, hand_out};
use crate::held::Held;
use crate::statuses::{DONE, LENGTHS, NO_MEMORY, OTHER_KIND, TOO_MANY_EDITS, VERTEX_COUNT};
use crate::store::{Change, Store};
use past_model::{MOST_EDITS, MOST_VERTICES};
use std::alloc::Global;

/// A store of a graph of so many vertices without an edge. `VERTEX_COUNT` exactly where they are not 1 to 268,435,456.
pub fn new_store(alloc: Global, vertex_count: u32, out: &mut Handle) -> u32
    ensures made { result ≡ DONE → HoldsStore out.new.held (opening vertex_count) }
    ensures left { result ≢ DONE → out.new.held ≡ out.old.held }
    ensures fault { result ≢ DONE → result ≢ NO_MEMORY → result ≡ VERTEX_COUNT }
    ensures outside { result ≡ VERTEX_COUNT → IsVertexCount vertex_count → ⊥ }
    ensures inside { result ≢ VERTEX_COUNT → IsVertexCount vertex_count }
{
    if vertex_count == 0 || vertex_count > MOST_VERTICES {
        return VERTEX_COUNT;
    }
    match Store::new(alloc, vertex_count) {
        Ok(store) => hand_out(alloc, Held::Store(store), out),
        Err(_) => NO_MEMORY,
    }
}

// Applies a batch to a store. The lengths of the arrays are tested first, and how many edits they are before memory is
// taken for them.
fn apply_arrays(
    alloc: Global,
    store: &mut Store,
    feed: u8,
    arrays: Arrays<'_>,
    change: &mut Change,
) -> u32
    ensures { IsAnswered feed arrays.entry.sources.now arrays.entry.targets.now arrays.entry.removes.now store.old
        result store.new change.old change.new }
{
    let count = arrays.sources.len();
    if arrays.targets.len() != count || arrays.removes.len() != count {
        return LENGTHS;
    }
    if count > MOST_EDITS {
        return TOO_MANY_EDITS;
    }
    match entry_of(alloc, feed, arrays) {
        Ok(entry) => store.apply(&entry, change),
        Err(_) => NO_MEMORY,
    }
}

/// Applies a batch to the store that a handle holds, and reports what it did.
pub fn apply_held(
    alloc: Global,
    held: &mut Held,
    feed: u8,
    arrays: Arrays<'_>,
    change: &mut Change,
) -> u32
    ensures { IsAppliedTo feed arrays.entry.sources.now arrays.entry.targets.now arrays.entry.removes.now
        (Some held.old) result (Some held.new) change.old change.new }
{
    match held {
        Held::Store(store) => apply_arrays(alloc, store, feed, arrays, change),
        Held::Version(_) => OTHER_KIND,
        Held::Program(_) => OTHER_KIND,
    }
}

/// Begins the next epoch of the store that a handle holds, and reports how many ended.
pub fn rebase_held(held: &mut Held, epoch: &mut u64) -> u32
    ensures { IsRebasedTo (Some held.old) result (Some held.new) epoch.old epoch.new }
{
    match held {
        Held::Store(store) => store.rebase(epoch),
        Held::Version(_) => OTHER_KIND,
        Held::Program(_) => OTHER_KIND,
    }
}

/// Writes a handle of the last version of the store that a handle holds.
pub fn pin_held(alloc: Global, held: &Held, out: &mut Handle) -> u32
    ensures { OnStore (Some held.now) result (out.new.held ≡ out.old.held)
        (λ p. IsHandedOut result (HoldsVersion out.new.held p) (out.new.held ≡ out.old.held)) }
{
    match held {
        Held::Store(store) => match store.pin() {
            Ok(version) => hand_out(alloc, Held::Version(version), out),
            Err(_) => NO_MEMORY,
        },
        Held::Version(_) => OTHER_KIND,
        Held::Program(_) => OTHER_KIND,
    }
}

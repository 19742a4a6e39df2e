//! Stores.
ghost use Rattle.std.specs.Prelude.{◌≡◌, ◌≢◌, None};
ghost use Rattle.past_model.specs.Past.{opening};
ghost use Rattle.past_model.specs.Epochs.{branched};
ghost use Rattle.version.specs.Version.{IsVertexCount};
ghost use Rattle.version.specs.Sorted.{past_of};
ghost use Rattle.embedding.specs.declared.statuses.TheConstants.{DONE, NO_MEMORY, VERTEX_COUNT};
ghost use Rattle.embedding.specs.Holding.{OnStore, OnVersion, HoldsStore, HoldsVersion};
ghost use Rattle.embedding.specs.Batches.{IsAppliedTo, IsRebasedTo, IsHandedOut};
ghost use Rattle.embedding.specs.Sorted.{IsTested};

use embedding::{
    Arrays, Change, EMPTY, Handle, apply_held, new_store, pin_held, rebase_held, store_from,
    store_of_held,
};
use std::alloc::Global;

/// A store of a graph of so many vertices, from 1 to 268,435,456, without an edge.
#[unsafe(no_mangle)]
pub extern "C" fn edgebpf_store_new(alloc: Global, vertex_count: u32, out: &mut Handle) -> u32
    ensures made { result ≡ DONE → HoldsStore out.new.held (opening vertex_count) }
    ensures left { result ≢ DONE → out.new.held ≡ out.old.held }
    ensures fault { result ≢ DONE → result ≢ NO_MEMORY → result ≡ VERTEX_COUNT }
    ensures outside { result ≡ VERTEX_COUNT → IsVertexCount vertex_count → ⊥ }
    ensures inside { result ≢ VERTEX_COUNT → IsVertexCount vertex_count }
{
    new_store(alloc, vertex_count, out)
}

/// A store of a graph of so many vertices whose edges are given in sorted arrays: where the list of each vertex begins, their number
/// after the last, and the targets, ascending for each vertex.
#[unsafe(no_mangle)]
pub extern "C" fn edgebpf_store_from(
    alloc: Global,
    vertex_count: u32,
    starts: &[u64],
    targets: &[u32],
    out: &mut Handle,
) -> u32
    ensures tested { result ≢ NO_MEMORY → IsTested vertex_count starts.now targets.now result }
    ensures memory { result ≡ NO_MEMORY → IsTested vertex_count starts.now targets.now DONE }
    ensures made { result ≡ DONE → HoldsStore out.new.held (past_of vertex_count starts.now targets.now) }
    ensures left { result ≢ DONE → out.new.held ≡ out.old.held }
{
    store_from(alloc, vertex_count, starts, targets, out)
}

/// A store of its own whose first version is this one, as the base of a first epoch without a batch. No list is copied.
#[unsafe(no_mangle)]
pub extern "C" fn edgebpf_store_of(alloc: Global, version: &mut Handle, out: &mut Handle) -> u32
    ensures kept { version.new.held ≡ version.old.held }
    ensures answered { OnVersion version.old.held result (out.new.held ≡ out.old.held)
        (λ p. IsHandedOut result (HoldsStore out.new.held (branched p)) (out.new.held ≡ out.old.held)) }
{
    match version.take(alloc) {
        None => EMPTY,
        Some(held) => {
            let answer = store_of_held(alloc, &held, out);
            version.put(held);
            answer
        }
    }
}

/// Applies a batch: for each place an edge from a source to a target, which is put in, or taken out where `removes` is not 0.
#[unsafe(no_mangle)]
pub extern "C" fn edgebpf_store_apply(
    alloc: Global,
    store: &mut Handle,
    feed: u8,
    sources: &[u32],
    targets: &[u32],
    removes: &[u8],
    change: &mut Change,
) -> u32
    ensures { IsAppliedTo feed sources.now targets.now removes.now store.old.held result store.new.held change.old
        change.new }
{
    let arrays = Arrays {
        sources,
        targets,
        removes,
    };
    match store.take(alloc) {
        None => EMPTY,
        Some(mut held) => {
            let answer = apply_held(alloc, &mut held, feed, arrays, change);
            store.put(held);
            answer
        }
    }
}

/// Makes the graph of the last version the base of a new epoch, whose log is empty, and reports how many epochs ended.
#[unsafe(no_mangle)]
pub extern "C" fn edgebpf_store_rebase(alloc: Global, store: &mut Handle, epoch: &mut u64) -> u32
    ensures { IsRebasedTo store.old.held result store.new.held epoch.old epoch.new }
{
    match store.take(alloc) {
        None => EMPTY,
        Some(mut held) => {
            let answer = rebase_held(&mut held, epoch);
            store.put(held);
            answer
        }
    }
}

/// The last version.
#[unsafe(no_mangle)]
pub extern "C" fn edgebpf_store_pin(alloc: Global, store: &mut Handle, out: &mut Handle) -> u32
    ensures kept { store.new.held ≡ store.old.held }
    ensures answered { OnStore store.old.held result (out.new.held ≡ out.old.held)
        (λ p. IsHandedOut result (HoldsVersion out.new.held p) (out.new.held ≡ out.old.held)) }
{
    match store.take(alloc) {
        None => EMPTY,
        Some(held) => {
            let answer = pin_held(alloc, &held, out);
            store.put(held);
            answer
        }
    }
}

/// Drops what a handle holds, and leaves it empty.
#[unsafe(no_mangle)]
pub extern "C" fn edgebpf_close(alloc: Global, handle: &mut Handle)
    ensures { handle.new.held ≡ None }
{
    let _held = handle.take(alloc);
}

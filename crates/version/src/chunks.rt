//! Lists in chunks: a longer list shares the chunks of the one before it.
ghost use Rattle.std.specs.Prelude.{◌≡◌, ◌++◌, Some, IfOk};
ghost use Rattle.std.specs.List.{flat_map};
ghost use Rattle.past_model.specs.Shared.{shared_items};
ghost use Rattle.version.specs.Chunks.{items_in};

use std::alloc::{AllocError, Global};
use std::sync::Arc;

/// The full chunks of a list. `None` is the empty list of them, which can be made without memory.
pub type Chunks<T> = Option<Arc<Vec<Arc<Vec<T>>>>>;

/// Another owner of a list of chunks.
pub(crate) fn shared_list<T: Drop>(list: &Chunks<T>) -> Result<Chunks<T>, AllocError>
    ensures { IfOk result (λ copy. shared_items copy ≡ shared_items list.now) }
{
    match list {
        None => Ok(None),
        Some(chunks) => Ok(Some(Arc::try_clone(chunks)?)),
    }
}

/// A list with one chunk more.
pub(crate) fn with_chunk<T: Drop>(
    alloc: Global,
    list: &Chunks<T>,
    chunk: Arc<Vec<T>>,
) -> Result<Arc<Vec<Arc<Vec<T>>>>, AllocError>
    ensures { IfOk result (λ longer. flat_map items_in (shared_items (Some longer))
        ≡ flat_map items_in (shared_items list.now) ++ items_in chunk) }
{
    let before: &[Arc<Vec<T>>] = match list {
        None => &[],
        Some(chunks) => chunks.as_slice(),
    };
    let mut chunks = shared_chunks(alloc, before)?;
    chunks.push(chunk)?;
    Ok(Arc::new(alloc, chunks)?)
}

// Other owners of these chunks, in a list with room for one more.
fn shared_chunks<T: Drop>(
    alloc: Global,
    chunks: &[Arc<Vec<T>>],
) -> Result<Vec<Arc<Vec<T>>>, AllocError>
    ensures { IfOk result (λ copy. flat_map items_in copy.items ≡ flat_map items_in chunks.now) }
{
    let mut copy = Vec::with_capacity(alloc, chunks.len().saturating_add(1))?;
    for chunk in chunks {
        copy.push(Arc::try_clone(chunk)?)?;
    }
    Ok(copy)
}

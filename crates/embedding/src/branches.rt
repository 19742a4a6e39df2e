//! Stores that begin from a graph which is there already.
ghost use Rattle.std.specs.Prelude.{◌≡◌, Some};
ghost use Rattle.past_model.specs.Epochs.{branched};
ghost use Rattle.embedding.specs.Batches.{IsHandedOut};
ghost use Rattle.embedding.specs.Holding.{OnVersion, HoldsStore};

use crate::handle::{Handle, hand_out};
use crate::held::Held;
use crate::statuses::{NO_MEMORY, OTHER_KIND};
use crate::store::Store;
use std::alloc::Global;

/// Writes a handle of a new store whose first version is that which a handle holds, as the base of a first epoch without a batch.
/// No list is copied. Batches of the new store change nothing of the version, nor of the store that it is of.
pub fn store_of_held(alloc: Global, held: &Held, out: &mut Handle) -> u32
    ensures { OnVersion (Some held.now) result (out.new.held ≡ out.old.held)
        (λ p. IsHandedOut result (HoldsStore out.new.held (branched p)) (out.new.held ≡ out.old.held)) }
{
    match held {
        Held::Version(version) => match Store::of(alloc, version) {
            Ok(store) => hand_out(alloc, Held::Store(store), out),
            Err(_) => NO_MEMORY,
        },
        Held::Store(_) => OTHER_KIND,
        Held::Program(_) => OTHER_KIND,
    }
}

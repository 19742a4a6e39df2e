//! The laws of moments, and of the calls. A function of the first does nothing: its contract is the law. One of the
//! others only makes public calls, and is proved from their contracts alone.
ghost use Rattle.std.specs.Prelude.{◌≡◌, [], ◌∷◌, IfSome};
ghost use Rattle.history.specs.declared.published.Published.TheVariants.{Batch, Rebase};
ghost use Rattle.history.specs.Moment.{count_of};
ghost use Rattle.history.specs.Laws.{InOrder, GoesOn, BeginningsAreBefore, BasesGoOn};

use crate::head::Head;
use crate::known::{Known, compare};
use past_model::Entry;

/// `Begins` is an order.
pub fn in_order()
    ensures { InOrder }
{}

/// A moment begins the one after a batch, and the one after a rebase.
pub fn goes_on()
    ensures { GoesOn }
{}

/// A moment that begins another is before it: its log begins the other's, or its epoch has ended, and the counts go on.
pub fn beginnings_are_before()
    ensures { BeginningsAreBefore }
{}

/// Over epochs the earlier one's epoch ended with a log that begins with its own, and left its graph as the next base.
pub fn bases_go_on()
    ensures { BasesGoOn }
{}

/// A batch that was added is all that is then known.
pub fn added_batch_is_known(entry: &Entry) -> Option<Known>
    ensures { IfSome result (λ known. known.published ≡ Batch entry.now ∷ []) }
{
    let (head, known) = Head::new();
    head.add(&known, 0, entry)
}

/// A rebase that was added is all that is then known.
pub fn added_rebase_is_known() -> Option<Known>
    ensures { IfSome result (λ known. known.published ≡ Rebase ∷ []) }
{
    let (head, known) = Head::new();
    head.rebase(&known, 0)
}

/// Two tokens of one history that know of as many publications know the same.
pub fn as_many_are_the_same(a: &Known, b: &Known)
    requires book { b.now.book ≡ a.now.book }
    requires count { count_of b.now ≡ count_of a.now }
    ensures { b.now.published ≡ a.now.published }
{
    compare(a, b);
}

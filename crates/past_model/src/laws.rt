//! The laws of the definitions, and of the calls. A function of the first does nothing: its contract is the law. One of
//! the others only makes public calls, and is proved from their contracts alone.
ghost use Rattle.std.specs.Prelude.{◌≡◌, IfOk};
ghost use Rattle.past_model.specs.Laws.{OneEdit, EditsInTurn, ChangeOfSize, ReplayIsGraph};
ghost use Rattle.past_model.specs.HomeLaws.{HomesHold, HomesStay, HomeOfLonger, HomesAtLimits};
ghost use Rattle.past_model.specs.EpochLaws.{RebaseChangesNothing, BranchBeginsAnew, PastsAreInOrder, PublicationsGoOn};

use crate::batch::Batch;
use crate::edit::Edit;
use crate::entry::Entry;
use crate::home::{ARRAY_MOST, ARRAY_RETURN, BLOCK_MOST, Home};
use std::alloc::{AllocError, Global};

/// One edit decides its own pair and leaves every other.
pub fn one_edit()
    ensures { OneEdit }
{}

/// A batch does what its edits do one after another.
pub fn edits_in_turn()
    ensures { EditsInTurn }
{}

/// What a batch adds less what it removes is the change of the number of edges.
pub fn change_of_size()
    ensures { ChangeOfSize }
{}

/// A log whose edits name vertices makes a graph.
pub fn replay_is_graph()
    ensures { ReplayIsGraph }
{}

/// After a batch a vertex's home may keep as many neighbours as it has.
pub fn homes_hold()
    ensures { HomesHold }
{}

/// A home that may keep as many as there are stays.
pub fn homes_stay()
    ensures { HomesStay }
{}

/// With one batch more the home before and the degree after decide.
pub fn home_of_longer()
    ensures { HomeOfLonger }
{}

/// The limits, each at its last degree and one past it.
pub fn homes_at_limits()
    ensures { HomesAtLimits }
{}

/// A rebase keeps the graph and every home.
pub fn rebase_changes_nothing()
    ensures { RebaseChangesNothing }
{}

/// A branch has the graph and every home, and begins anew.
pub fn branch_begins_anew()
    ensures { BranchBeginsAnew }
{}

/// `IsBefore` is an order.
pub fn pasts_are_in_order()
    ensures { PastsAreInOrder }
{}

/// A past is before the one with a batch more, and before its rebase.
pub fn publications_go_on()
    ensures { PublicationsGoOn }
{}

/// A list stays at the last degree of its home.
pub fn lists_stay_at_the_last_degree() -> (Home, Home)
    ensures block { result.0 ≡ Home.Block }
    ensures array { result.1 ≡ Home.Gapped }
{
    (
        Home::Block.after(BLOCK_MOST),
        Home::Gapped.after(ARRAY_MOST),
    )
}

/// A list leaves its tree at the last degree where it may, and not before.
pub fn trees_return_in_time() -> (Home, Home)
    ensures { result ≡ (Home.Gapped, Home.Tree) }
{
    (
        Home::Tree.after(ARRAY_RETURN),
        Home::Tree.after(ARRAY_RETURN + 1),
    )
}

/// A shared batch has the edits that the batch was made of.
pub fn shared_batch_has_its_edits(alloc: Global, edits: Vec<Edit>) -> Result<Batch, AllocError>
    ensures { IfOk result (λ batch. batch ≡ edits.items) }
{
    Batch::new(alloc, edits)?.share()
}

/// A shared entry is of the same feed.
pub fn shared_entry_is_of_its_feed(entry: &Entry) -> Result<u8, AllocError>
    ensures { IfOk result (λ feed. feed ≡ entry.now.feed) }
{
    let shared = entry.share()?;
    Ok(shared.feed)
}

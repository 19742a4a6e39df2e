//! The batches of a session.

ghost use Rattle.std.specs.Prelude.{◌≡◌, MatchOption, Some, true, false};
ghost use Rattle.past_model.specs.Edits.{is_edit_below};
ghost use Rattle.past_model.specs.Past.{opening};
ghost use Rattle.session_model.specs.Session.{Session as SessionState};
ghost use Rattle.session_model.specs.Faults.{edit_fault, is_batch_of, HasFewVertices};
ghost use Rattle.session_model.specs.Responses.{publish_response};
ghost use Rattle.session.specs.Edits.{edit_of, AddsEdit};
ghost use Rattle.session.specs.Kept.{with_store};
ghost use Rattle.session.specs.Performs.{Performs};

use crate::answer::Answer;
use crate::error::CommandError;
use crate::handles::Handles;
use crate::session::Session;
use past_model::{Batch, Edit, FEEDS, MOST_BATCHES, MOST_EDITS, are_below};
use session_model::Fault;
use std::alloc::Global;
use std::sync::Wait;
use std::thread::Threads;
use workers::{Crew, Gate};

/// An edit whose vertices are not tested: source and target.
#[derive(Clone, Copy, Debug, PartialEq, Eq)]
pub enum GivenEdit {
    /// The pair is an edge afterwards.
    Insert(u64, u64),
    /// The pair is no edge afterwards.
    Remove(u64, u64),
}

impl Session {
    /// Adds an edit to those of a batch that is still to be published. A fault adds nothing: `Order`
    /// before there is a graph, `Range` where an end is no vertex, `TooMany` after 65,536 edits.
    pub fn add_edit(&self, edits: &mut Vec<Edit>, edit: GivenEdit) -> Result<(), CommandError>
        ensures added { AddsEdit (edit_fault (edit_of edit) edits.old.items self.now.past)
            (edit_of edit) edits.old.items edits.new.items result }
        ensures few { HasFewVertices self.now }
    {
        let Some(store) = &self.store else {
            return Err(CommandError::Fault(Fault::Order));
        };
        let Some(edit) = edit_below(edit, store.vertex_count()) else {
            return Err(CommandError::Fault(Fault::Range));
        };
        if edits.len() >= MOST_EDITS {
            return Err(CommandError::Fault(Fault::TooMany));
        }
        edits.push(edit)?;
        Ok(())
    }

    /// Publishes a batch.
    pub(crate) fn publish_batch<'a, Ga: Gate, R: Threads + Wait>(
        &mut self,
        crew: &Crew<'_, R, Ga>,
        feed: u8,
        edits: Vec<Edit>,
    ) -> Result<Answer<'a>, CommandError>
        ensures { Performs (publish_response feed edits.items self.old) result self.old self.new }
    {
        let alloc = self.alloc;
        let Some(store) = &mut self.store else {
            return Err(CommandError::Fault(Fault::Order));
        };
        publish(crew, alloc, store, feed, edits)
    }
}

/// Publishes a batch, where there is such a feed, its edits are of the graph and few enough, and the log has room for it.
fn publish<'a, Ga: Gate, R: Threads + Wait>(
    crew: &Crew<'_, R, Ga>,
    alloc: Global,
    store: &mut Handles,
    feed: u8,
    edits: Vec<Edit>,
) -> Result<Answer<'a>, CommandError>
    ensures { (s : SessionState) → Performs (publish_response feed edits.items (with_store s store.old)) result
        (with_store s store.old) (with_store s store.new) }
{
    if !is_batch(feed, &edits, store.vertex_count()) {
        return Err(CommandError::Fault(Fault::Range));
    }
    if edits.len() > MOST_EDITS {
        return Err(CommandError::Fault(Fault::TooMany));
    }
    if store.number() >= MOST_BATCHES {
        return Err(CommandError::Fault(Fault::LogFull));
    }
    let batch = Batch::new(alloc, edits)?;
    match store.publish(crew, feed, batch) {
        Ok(receipt) => Ok(Answer::BatchPublished {
            feed,
            number: receipt.number(),
            added: receipt.added(),
            removed: receipt.removed(),
        }),
        Err(error) => Err(error),
    }
}

/// The edit, where its ends are vertices below a number of vertices.
fn edit_below(edit: GivenEdit, vertices: u32) -> Option<Edit>
    ensures { MatchOption result (is_edit_below vertices (edit_of edit) ≡ false)
        (λ below. (is_edit_below vertices (edit_of edit) ≡ true) × (below ≡ edit_of edit)) }
{
    let vertices = u64::from(vertices);
    match edit {
        GivenEdit::Insert(source, target) if source < vertices && target < vertices => {
            Some(Edit::Insert(source as u32, target as u32))
        }
        GivenEdit::Remove(source, target) if source < vertices && target < vertices => {
            Some(Edit::Remove(source as u32, target as u32))
        }
        _ => None,
    }
}

/// Whether there is such a feed, and the ends of all edits are below a number of vertices.
fn is_batch(feed: u8, edits: &[Edit], vertices: u32) -> bool
    ensures { result ≡ is_batch_of feed edits.now (opening vertices) }
{
    feed < FEEDS && are_below(edits, vertices)
}

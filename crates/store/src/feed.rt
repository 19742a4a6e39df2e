//! The end at which batches are submitted.
ghost use Rattle.std.specs.Prelude.{◌≡◌, ◌<◌, IfOk, IfErr};
ghost use Rattle.past_model.specs.Edits.{AreEditsBelow};
ghost use Rattle.past_model.specs.declared.limits.TheConstants.{FEEDS};
ghost use Rattle.store.specs.Ends.{after_put, IsFeedOf};
ghost use Rattle.store.specs.Feeds.{AreFew, IsRefused};
ghost use Rattle.store.specs.Ties.{SubmitsAsEvent};

use crate::errors::{SubmitCause, SubmitError};
use crate::queue::Sender;
use past_model::{Batch, MOST_EDITS};
use std::marker::Model;
use std::sync::Wait;

/// One of the four sources of batches. Contracts see it as a `Feeding`.
pub struct Feed {
    vertex_count: u32,
    sender: Sender,
}

impl Drop for Feed {
    // Written out, so that crates above prove a call here, and not the drop of each part.
    fn drop(self) {
        let Feed {
            vertex_count: _vertex_count,
            sender: _outlet,
        } = self;
    }
}

impl Model for Feed {
    ghost use Rattle.std.specs.Prelude.{◌≡◌};
    ghost use Rattle.store.specs.Ends.{Feeding};

    ghost Value = { Feeding };

    ghost view = { λ f. f.sender };

    ghost invariant = { λ f. f.vertex_count ≡ f.sender.vertex_count };
}

impl Feed {
    /// The feed that puts its batches there.
    pub(crate) fn over(vertex_count: u32, sender: Sender) -> Feed
        requires { vertex_count ≡ sender.vertex_count }
        ensures { result ≡ sender }
    {
        Feed {
            vertex_count,
            sender,
        }
    }

    /// Where it puts its batches.
    pub(crate) fn into_sender(self) -> Sender
        ensures { result ≡ self }
    {
        let Feed {
            vertex_count: _,
            sender,
        } = self;
        sender
    }

    /// Submits a batch, to be published in its turn. After an error the batch comes back: `TooManyEdits`, which is
    /// tested first, above 65,536 edits; then `VertexRange` where an edit names no vertex; then `Full` where the
    /// queue held 64 batches.
    pub fn submit<R: Wait>(&mut self, batch: Batch, rt: &R) -> Result<(), SubmitError>
        ensures same_feed { IsFeedOf self.old.vertex_count self.old.queue self.old.feed self.new }
        ensures submitted { IfOk result (λ _. self.new ≡ after_put self.old batch) }
        ensures feed { IfOk result (λ _. self.old.feed < FEEDS) }
        ensures few { IfOk result (λ _. AreFew batch) }
        ensures below { IfOk result (λ _. AreEditsBelow self.old.vertex_count batch) }
        ensures event { IfOk result (λ _. SubmitsAsEvent self.old batch self.new) }
        ensures back { IfErr result (λ refused. refused.batch ≡ batch) }
        ensures refused { IfErr result (λ refused. IsRefused self.old batch refused.cause self.new) }
    {
        self.offer(batch, rt)
    }

    // Tests a batch, and puts it into the queue.
    fn offer<R: Wait>(&mut self, batch: Batch, rt: &R) -> Result<(), SubmitError>
        ensures same_feed { IsFeedOf self.old.vertex_count self.old.queue self.old.feed self.new }
        ensures submitted { IfOk result (λ _. self.new ≡ after_put self.old batch) }
        ensures feed { IfOk result (λ _. self.old.feed < FEEDS) }
        ensures few { IfOk result (λ _. AreFew batch) }
        ensures below { IfOk result (λ _. AreEditsBelow self.old.vertex_count batch) }
        ensures back { IfErr result (λ refused. refused.batch ≡ batch) }
        ensures refused { IfErr result (λ refused. IsRefused self.old batch refused.cause self.new) }
    {
        if batch.edits().len() > MOST_EDITS {
            return Err(SubmitError {
                cause: SubmitCause::TooManyEdits,
                batch,
            });
        }
        if !batch.is_below(self.vertex_count) {
            return Err(SubmitError {
                cause: SubmitCause::VertexRange,
                batch,
            });
        }
        match self.sender.put(batch, rt) {
            Ok(()) => Ok(()),
            Err(batch) => Err(SubmitError {
                cause: SubmitCause::Full,
                batch,
            }),
        }
    }
}

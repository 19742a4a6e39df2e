//! What can happen to the store.
ghost use Rattle.std.specs.Prelude.{◌≡◌, IfOk};

use past_model::Batch;
use std::alloc::AllocError;

/// What can happen to the store. Each event is one atomic step.
#[derive(Debug, Drop)]
pub enum Event {
    /// A feed hands in a batch, which waits in the queue.
    Submit { feed: u8, batch: Batch },
    /// The queue's first batch is held, to be worked on.
    Take,
    /// The held batch's edits of one range are done.
    Part { range: u32 },
    /// The held batch, all of whose ranges are done, makes the next version.
    Publish,
    /// The graph so far is the base of a new epoch, whose log is empty.
    Rebase,
    /// A reader begins a run: over one vertex's neighbours, in the version of that moment.
    Pin { reader: u8, vertex: u32 },
    /// A reader's run is lent its next words.
    Lend { reader: u8 },
}

impl Event {
    /// The same event. A batch's edits are not copied. It fails where the batch cannot have another
    /// owner.
    pub fn share(&self) -> Result<Event, AllocError>
        ensures { IfOk result (λ event. event ≡ self.now) }
    {
        match self {
            Event::Submit { feed, batch } => Ok(Event::Submit {
                feed: *feed,
                batch: batch.share()?,
            }),
            Event::Take => Ok(Event::Take),
            Event::Part { range } => Ok(Event::Part { range: *range }),
            Event::Publish => Ok(Event::Publish),
            Event::Rebase => Ok(Event::Rebase),
            Event::Pin { reader, vertex } => Ok(Event::Pin {
                reader: *reader,
                vertex: *vertex,
            }),
            Event::Lend { reader } => Ok(Event::Lend { reader: *reader }),
        }
    }
}

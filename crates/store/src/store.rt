//! How a store begins, with all its ends.
ghost use Rattle.std.specs.Prelude.{◌≡◌, ◌<◌, ◌↔◌, ◌⊎◌, IfOk, IsErrOf};
ghost use Rattle.past_model.specs.declared.limits.TheConstants.{SERVED_VERTICES};
ghost use Rattle.store.specs.Storing.{IsOpened};

use crate::board::open_board;
use crate::committer::Committer;
use crate::errors::StoreError;
use crate::feed::Feed;
use crate::publisher::Publisher;
use crate::queue::{Opened, open_queue};
use crate::reader::Reader;
use crate::recorded::Recorded;
use history::Head;
use past_model::SERVED_VERTICES;
use std::alloc::Global;
use std::sync::{Arc, Wait};
use version::Version;

/// Where publishers, feeds and readers come from.
pub struct Store;

/// All ends of one store. Whoever has them ends the store by `Publisher::finish`, with the feeds.
pub struct Ends {
    /// The end at which versions are made.
    pub publisher: Publisher,
    /// The ends at which batches are submitted, one of each feed from A on, which is feed 0.
    pub feeds: Vec<Feed>,
    /// An end at which versions are pinned, from which the others come.
    pub reader: Reader,
}

impl Store {
    /// A store of a graph without an edge, which may have 1 to 1,048,576 vertices: its publisher, its feeds and a reader.
    /// It has all the memory that feeds and readers need.
    pub fn new<R: Wait>(vertex_count: u32, rt: &R, alloc: Global) -> Result<Ends, StoreError>
        ensures opened { IfOk result (λ ends. IsOpened vertex_count ends.publisher ends.feeds.items ends.reader) }
        ensures refused { IsErrOf result StoreError.VertexCount
            ↔ ((vertex_count ≡ 0) ⊎ (SERVED_VERTICES < vertex_count)) }
    {
        if vertex_count == 0 || vertex_count > SERVED_VERTICES {
            return Err(StoreError::VertexCount);
        }
        let Opened { receiver, feeds } = open_queue(alloc, vertex_count)?;
        let (head, known) = Head::new();
        let version = Version::opening(alloc, vertex_count)?;
        let current = Recorded::of(Arc::new(alloc, version)?, known, 0);
        let (board, side) = open_board(alloc, &current, rt)?;
        let committer = Committer {
            alloc,
            head,
            current,
            board,
        };
        let publisher = Publisher {
            committer,
            held: None,
            pending: None,
            receiver,
        };
        Ok(Ends {
            publisher,
            feeds,
            reader: Reader::at(side),
        })
    }
}

//! The lines of a list's edges, block by block.

ghost use Rattle.std.specs.Prelude.{◌≡◌, ◌++◌, ◌<◌, [], length, true, false, IfOk, OnOk};
ghost use Rattle.std.specs.List.{flat_map};
ghost use Rattle.script_model.specs.Texts.{edge_text};

use crate::texts::put_edges;
use session::{EdgeList, ListedEdge, Listing};
use std::alloc::{AllocError, Global};
use std::marker::Model;

/// The edges of a listing whose lines are still to be written, and room for a block of them.
#[derive(Drop)]
pub struct EdgeLines<'a> {
    edges: EdgeList<'a>,
    block: Vec<ListedEdge>,
}

impl<'a> Model for EdgeLines<'a> {
    ghost use Rattle.std.specs.Prelude.{List};
    ghost use Rattle.map_model.specs.declared.listed_edge.ListedEdge.{ListedEdge};

    ghost Value = { List ListedEdge };

    ghost view = { λ l. l.edges };
}

impl<'a> EdgeLines<'a> {
    /// All of a listing's.
    pub fn of(alloc: Global, listing: &'a Listing) -> EdgeLines<'a>
        ensures { result ≡ listing.now }
    {
        EdgeLines {
            edges: listing.edges(),
            block: Vec::new(alloc),
        }
    }

    /// Writes the lines of the next edges at the end of a text, and says whether there were any.
    pub fn put_block(&mut self, alloc: Global, text: &mut Vec<u8>) -> Result<bool, AllocError>
        ensures text { OnOk result (text.new.items ++ flat_map edge_text self.new
            ≡ text.old.items ++ flat_map edge_text self.old) }
        ensures some { IfOk result (λ more. more ≡ true → length self.new < length self.old) }
        ensures none { IfOk result (λ more. more ≡ false → self.old ≡ []) }
    {
        self.edges.next_block(alloc, &mut self.block)?;
        let block = self.block.as_slice();
        put_edges(text, block)?;
        Ok(!block.is_empty())
    }
}

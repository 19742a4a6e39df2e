//! All edges of a version with their numbers, block by block.
ghost use Rattle.std.specs.Prelude.{◌≡◌, ◌≤◌, ℕ, List, [], take, drop, IfOk, IfSome, OnOk, OnErr};
ghost use Rattle.std.specs.Vec.{vec_capacity};
ghost use Rattle.graph_model.specs.Graph.{Graph};
ghost use Rattle.past_model.specs.Past.{graph_of};
ghost use Rattle.edge_map.specs.declared.limits.TheConstants.{BLOCK_EDGES};
ghost use Rattle.edge_map.specs.Listing.{listing, IsListed};
ghost use Rattle.edge_map.specs.Maps.{FitsRecord};
ghost use Rattle.edge_map.specs.Workspaces.{IsWorkspace};

use crate::errors::MapError;
use crate::limits::BLOCK_EDGES;
use crate::walk::Walk;
use edge_fold::{Mapped, Memory, number_ahead};
use map_model::{EDGE_BYTES, ListedEdge};
use std::alloc::{AllocError, Global};
use std::marker::Model;
use store::Pin;
use verifier::Verified;
use version::Version;

/// What the blocks of a list are run in, of which no run has begun.
fn new_workspace(alloc: Global, program: &Verified) -> Result<Box<Memory>, AllocError>
    ensures { (g : Graph) (argument : List ℕ) → IfOk result
        (λ workspace. IsWorkspace program.now g argument workspace.value) }
{
    Ok(Box::new(alloc, Memory::for_program(program))?)
}

/// The one that is kept, or else a new one.
fn kept_or_new(
    alloc: Global,
    kept: Option<Box<Memory>>,
    program: &Verified,
) -> Result<Box<Memory>, AllocError>
    ensures { (g : Graph) (argument : List ℕ)
        → IfSome kept (λ workspace. IsWorkspace program.now g argument workspace.value)
        → IfOk result (λ workspace. IsWorkspace program.now g argument workspace.value) }
{
    match kept {
        Some(workspace) => Ok(workspace),
        None => new_workspace(alloc, program),
    }
}

/// Fills a block, which has room for all of it, with the next edges of a walk and their numbers.
fn fill(
    block: &mut Vec<ListedEdge>,
    walk: &mut Walk<'_>,
    workspace: &mut Memory,
    program: &Verified,
    argument: &[u8],
)
    requires fits { FitsRecord program.now argument.now }
    requires empty { block.old.items ≡ [] }
    requires room { BLOCK_EDGES ≤ vec_capacity block.old }
    requires workspace { IsWorkspace program.now (graph_of walk.old.past) argument.now workspace.old }
    ensures past { walk.new.past ≡ walk.old.past }
    ensures block { let g = graph_of walk.old.past in
        block.new.items ≡ take BLOCK_EDGES (listing program.now g argument.now walk.old.edges) }
    ensures left { let g = graph_of walk.old.past in listing program.now g argument.now walk.new.edges
        ≡ drop BLOCK_EDGES (listing program.now g argument.now walk.old.edges) }
    ensures workspace { IsWorkspace program.now (graph_of walk.old.past) argument.now workspace.new }
{
    let version = walk.version();
    'edges: while block.len() < BLOCK_EDGES {
        let Some(edge) = walk.next() else {
            return;
        };
        let mapped = Mapped {
            version,
            program,
            argument,
            columns: &[],
        };
        let number = number_ahead(&mapped, workspace, edge, walk.later());
        let listed = ListedEdge {
            source: edge.source,
            target: edge.target,
            number,
        };
        let Ok(()) = block.push(listed) else {
            unreachable!()
        };
    }
}

/// The edges of a version that are still to be listed, each with the number that a program exits with for it: sources
/// ascending, and targets ascending for each.
#[derive(Drop)]
pub struct EdgeList<'a> {
    walk: Walk<'a>,
    program: &'a Verified,
    argument: &'a [u8],
    // What the blocks are run in. It is made for the first one, and serves the others.
    workspace: Option<Box<Memory>>,
}

impl<'a> Model for EdgeList<'a> {
    ghost use Rattle.std.specs.Prelude.{List, IfSome};
    ghost use Rattle.past_model.specs.Past.{graph_of};
    ghost use Rattle.map_model.specs.declared.listed_edge.ListedEdge.{ListedEdge};
    ghost use Rattle.edge_map.specs.Listing.{listing};
    ghost use Rattle.edge_map.specs.Maps.{FitsRecord};
    ghost use Rattle.edge_map.specs.Workspaces.{IsWorkspace};

    ghost Value = { List ListedEdge };

    ghost view = { λ l. listing l.program.now (graph_of l.walk.past) l.argument.now l.walk.edges };

    ghost invariant = { λ l. FitsRecord l.program.now l.argument.now
        × IfSome l.workspace (λ workspace. IsWorkspace l.program.now
        (graph_of l.walk.past) l.argument.now workspace.value) };
}

impl<'a> EdgeList<'a> {
    /// Puts the next 4,096 edges into a block in place of what it held, or as many as are left: an empty block is the
    /// end of the list. All memory is taken before the first edge is run: the block's, and with the list's first block
    /// what its runs work on, which the next blocks use again. If an allocation is refused, the list is as it was.
    pub fn next_block(
        &mut self,
        alloc: Global,
        block: &mut Vec<ListedEdge>,
    ) -> Result<(), AllocError>
        ensures block { OnOk result (block.new.items ≡ take BLOCK_EDGES self.old) }
        ensures left { OnOk result (self.new ≡ drop BLOCK_EDGES self.old) }
        ensures err { OnErr result (self.new ≡ self.old) }
    {
        block.clear();
        block.reserve(BLOCK_EDGES)?;
        let kept = self.workspace.take();
        let mut workspace = kept_or_new(alloc, kept, self.program)?;
        fill(
            block,
            &mut self.walk,
            &mut workspace,
            self.program,
            self.argument,
        );
        self.workspace = Some(workspace);
        Ok(())
    }
}

/// The list of a version.
#[tactic(auto, using(crate::proofs::Listings::listing_all))]
pub(crate) fn list_version<'a>(
    version: &'a Version,
    program: &'a Verified,
    argument: &'a [u8],
) -> Result<EdgeList<'a>, MapError>
    ensures { IsListed program.now (graph_of version.now) argument.now result }
{
    if argument.len() + EDGE_BYTES != usize::from(program.image().record_length()) {
        return Err(MapError::ArgumentLength);
    }
    Ok(EdgeList {
        walk: Walk::over(version),
        program,
        argument,
        workspace: None,
    })
}

/// All edges of a pin's version, sources ascending and targets ascending for each, each with the number that a verified
/// program exits with on a record of the edge's own; no edge is left out (`edge_fold::laws`). `ArgumentLength` exactly
/// where the argument does not have the record's length less 16 bytes, and no other error. It runs nothing and takes no
/// memory yet: the edges are run block by block, by the thread that asks for them.
pub fn list_edges<'a>(
    pin: &'a Pin,
    program: &'a Verified,
    argument: &'a [u8],
) -> Result<EdgeList<'a>, MapError>
    ensures { IsListed program.now (graph_of pin.now.past) argument.now result }
{
    list_version(pin.version(), program, argument)
}

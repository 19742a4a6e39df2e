//! The graph of a session.

ghost use Rattle.std.specs.Prelude.{◌≡◌, IfOk, IfErr, MatchOption, option_map, true, false};
ghost use Rattle.past_model.specs.Past.{Past};
ghost use Rattle.session_model.specs.Faults.{is_vertex_count, HasFewVertices};
ghost use Rattle.session_model.specs.Responses.{graph_response};
ghost use Rattle.session.specs.Handles.{new_store};
ghost use Rattle.session.specs.Performs.{Performs};

use crate::answer::Answer;
use crate::error::CommandError;
use crate::handles::Handles;
use crate::session::Session;
use session_model::Fault;
use std::alloc::Global;
use std::mem;
use std::sync::Wait;
use store::StoreError;

impl Session {
    /// How many vertices the graph has, where there is one.
    pub fn vertex_count(&self) -> Option<u32>
        ensures value { result ≡ option_map (λ (past : Past). past.vertex_count) self.now.past }
        ensures few { HasFewVertices self.now }
    {
        match &self.store {
            None => None,
            Some(store) => Some(store.vertex_count()),
        }
    }

    /// Makes the graph of so many vertices.
    pub(crate) fn make_graph<'a, R: Wait>(
        &mut self,
        rt: &R,
        vertices: u64,
    ) -> Result<Answer<'a>, CommandError>
        ensures performed { Performs (graph_response vertices self.old) result self.old self.new }
        ensures kept { IfErr result (λ _. self.new ≡ self.old) }
    {
        if self.store.is_some() {
            return Err(CommandError::Fault(Fault::Order));
        }
        let Some(store) = store_of(rt, self.alloc, vertices)? else {
            return Err(CommandError::Fault(Fault::Range));
        };
        match mem::replace(&mut self.store, Some(store)) {
            None => {}
            Some(_) => unreachable!(),
        }
        Ok(Answer::GraphMade { vertices })
    }
}

/// The ends of a store of so many vertices, where a graph may have so many.
fn store_of<R: Wait>(rt: &R, alloc: Global, vertices: u64) -> Result<Option<Handles>, CommandError>
    ensures made { IfOk result (λ made. MatchOption made (is_vertex_count vertices ≡ false)
        (λ store. (is_vertex_count vertices ≡ true) × (store ≡ new_store vertices))) }
    ensures error { IfErr result (λ e. e ≡ CommandError.OutOfMemory) }
{
    let Ok(vertices) = u32::try_from(vertices) else {
        return Ok(None);
    };
    match Handles::open(rt, alloc, vertices) {
        Ok(store) => Ok(Some(store)),
        Err(StoreError::VertexCount) => Ok(None),
        Err(StoreError::OutOfMemory) => Err(CommandError::OutOfMemory),
    }
}

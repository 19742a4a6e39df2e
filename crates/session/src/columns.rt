//! The columns of a session: their numbers, as they are set and shown.

ghost use Rattle.std.specs.Prelude.{◌≡◌, ◌<◌, IfOk, IfErr, true, nat_lt, filter, map};
ghost use Rattle.std.specs.List.{list_all};
ghost use Rattle.graph_model.specs.Graph.{numbers_below};
ghost use Rattle.session_model.specs.Faults.{is_span, column_fault};
ghost use Rattle.session_model.specs.Responses.{column_response, values_response, values_of as values_among, value_at, is_not_zero, numbers_or_zeros, with_numbers};
ghost use Rattle.session_model.specs.Session.{column_named};
ghost use Rattle.session.specs.Performs.{Performs};

use crate::answer::Answer;
use crate::error::CommandError;
use crate::frontier::{are_below, ascends};
use crate::kept::{find_column, set_in_place, store_column};
use crate::session::Session;
use map_model::Row;
use session_model::{Fault, MOST_KEPT_COLUMNS};
use std::alloc::{AllocError, Global};

/// Whether so many numbers from a vertex on are of vertices.
fn is_span_of(vertices: u32, first: u64, count: usize) -> bool
    ensures { result ≡ is_span vertices first count }
{
    let vertices = u64::from(vertices);
    first < vertices && count as u64 <= vertices - first
}

/// A column with other numbers from a vertex on.
fn with_numbers_at(
    alloc: Global,
    column: &[u64],
    first: usize,
    numbers: &[u64],
) -> Result<Vec<u64>, AllocError>
    ensures { IfOk result (λ after. after.items ≡ with_numbers first numbers.now column.now) }
{
    let mut after = Vec::with_capacity(alloc, column.len())?;
    after.extend_from_slice(column.get(..first).unwrap_or(column))?;
    after.extend_from_slice(numbers)?;
    let end = first.saturating_add(numbers.len());
    after.extend_from_slice(column.get(end..).unwrap_or(&[]))?;
    Ok(after)
}

/// What a column has for a vertex.
fn row_of(numbers: &[u64], vertex: u32) -> Row
    ensures { result ≡ value_at numbers.now vertex }
{
    let place = vertex as usize;
    let value = if place < numbers.len() {
        numbers[place]
    } else {
        0
    };
    Row { vertex, value }
}

/// What a column has for all vertices, but 0.
fn some_values(alloc: Global, numbers: &[u64], vertices: u32) -> Result<Vec<Row>, AllocError>
    ensures { IfOk result (λ rows. rows.items
        ≡ filter is_not_zero (map (value_at numbers.now) (numbers_below vertices))) }
{
    let mut rows = Vec::new(alloc);
    for vertex in 0..vertices {
        let row = row_of(numbers, vertex);
        if row.value != 0 {
            rows.push(row)?;
        }
    }
    Ok(rows)
}

/// What a column has for some vertices, which lie below a number of vertices.
fn named_values(
    alloc: Global,
    numbers: &[u64],
    frontier: &[u64],
    vertices: u32,
) -> Result<Vec<Row>, AllocError>
    requires { list_all (λ v. nat_lt v vertices) frontier.now ≡ true }
    ensures { IfOk result (λ rows. rows.items ≡ map (value_at numbers.now) frontier.now) }
{
    let mut rows = Vec::with_capacity(alloc, frontier.len())?;
    for vertex in frontier {
        rows.push(row_of(numbers, *vertex as u32))?;
    }
    Ok(rows)
}

/// What a column has for vertices; where none is named, for all vertices, but 0.
fn values_of(
    alloc: Global,
    numbers: &[u64],
    frontier: &[u64],
    vertices: u32,
) -> Result<Vec<Row>, AllocError>
    requires { list_all (λ v. nat_lt v vertices) frontier.now ≡ true }
    ensures { IfOk result (λ rows. rows.items ≡ values_among vertices numbers.now frontier.now) }
{
    if frontier.is_empty() {
        return some_values(alloc, numbers, vertices);
    }
    named_values(alloc, numbers, frontier, vertices)
}

impl Session {
    /// The column of a name with other numbers from a vertex on, or zeros with these if there is none.
    fn column_with(
        &self,
        name: &[u8],
        vertices: u32,
        first: u64,
        numbers: &[u64],
    ) -> Result<Vec<u64>, AllocError>
        requires { first < vertices }
        ensures { IfOk result (λ after. after.items
            ≡ with_numbers first numbers.now (numbers_or_zeros vertices (column_named name.now self.now.columns))) }
    {
        match find_column(&self.columns, name) {
            Some(column) => with_numbers_at(self.alloc, column, first as usize, numbers),
            None => {
                let zeros = vec![in self.alloc; 0u64; vertices as usize]?;
                with_numbers_at(self.alloc, &zeros, first as usize, numbers)
            }
        }
    }

    /// Sets numbers of a column from a vertex on.
    pub(crate) fn set_column<'a>(
        &mut self,
        name: &'a [u8],
        first: u64,
        numbers: &[u64],
    ) -> Result<Answer<'a>, CommandError>
        ensures performed { Performs (column_response name.now first numbers.now self.old) result self.old self.new }
        ensures kept { IfErr result (λ _. self.new ≡ self.old) }
    {
        let Some(store) = &self.store else {
            return Err(CommandError::Fault(Fault::Order));
        };
        let vertices = store.vertex_count();
        if !is_span_of(vertices, first, numbers.len()) {
            return Err(CommandError::Fault(Fault::Range));
        }
        let is_new = find_column(&self.columns, name).is_none();
        if is_new && self.columns.len() >= MOST_KEPT_COLUMNS {
            return Err(CommandError::Fault(Fault::TooMany));
        }
        let count = numbers.len() as u64;
        if set_in_place(&mut self.columns, name, first as usize, numbers) {
            return Ok(Answer::ColumnSet { name, count });
        }
        let after = self.column_with(name, vertices, first, numbers)?;
        store_column(self.alloc, &mut self.columns, name, after)?;
        Ok(Answer::ColumnSet { name, count })
    }

    /// Shows the numbers of a column.
    pub(crate) fn show_values<'a>(
        &self,
        name: &[u8],
        frontier: &[u64],
    ) -> Result<Answer<'a>, CommandError>
        ensures { Performs (values_response name.now frontier.now self.now) result self.now self.now }
    {
        let Some(store) = &self.store else {
            return Err(CommandError::Fault(Fault::Order));
        };
        let vertices = store.vertex_count();
        if !are_below(frontier, vertices) {
            return Err(CommandError::Fault(Fault::Range));
        }
        let Some(numbers) = find_column(&self.columns, name) else {
            return Err(CommandError::Fault(Fault::Name));
        };
        if !ascends(frontier) {
            return Err(CommandError::Fault(Fault::Frontier));
        }
        let rows = values_of(self.alloc, numbers, frontier, vertices)?;
        Ok(Answer::ValuesShown { rows })
    }
}

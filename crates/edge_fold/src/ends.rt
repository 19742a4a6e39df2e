//! The numbers that columns have for the ends of edges.
ghost use Rattle.std.specs.Prelude.{◌≡◌, ◌+◌, ◌*◌, ◌<◌, ◌≤◌, ◌++◌, ℕ, true, map, length, take, drop, slice_index, slice_index_or, []};
ghost use Rattle.std.specs.Int.{w64, to_le_bytes as bytes_of};
ghost use Rattle.bpf_blocks.specs.Rows.{row};
ghost use Rattle.bpf_blocks.specs.declared.columns.TheConstants.{LANES};
ghost use Rattle.map_model.specs.declared.limits.TheConstants.{COLUMN_BYTES, MOST_COLUMNS};
ghost use Rattle.edge_fold.specs.Inputs.{are_columns, ends_of, end_bytes};

use crate::edge::Edge;
use bpf_blocks::{Edges, gather_end};
use map_model::{COLUMN_BYTES, MOST_COLUMNS};

/// Whether columns can be lent to runs over the edges of a graph of so many vertices: there are at most 8, and each has a number
/// for each vertex.
pub fn columns_fit(columns: &[&[u64]], vertices: u32) -> bool
    ensures fits { result ≡ are_columns vertices (map (λ column. column.now) columns.now) }
    ensures few { result ≡ true → length columns.now ≤ MOST_COLUMNS }
{
    if columns.len() > MOST_COLUMNS {
        return false;
    }
    'columns: for at in 0..columns.len() {
        if column_at(columns, at).len() != vertices as usize {
            return false;
        }
    }
    true
}

/// How many bytes a number has.
const NUMBER_BYTES: usize = 8;

/// One of some columns.
#[inline(always)]
fn column_at<'a>(columns: &[&'a [u64]], at: usize) -> &'a [u64]
    requires { at < length columns.now }
    ensures { result.now ≡ slice_index_or (map (λ column. column.now) columns.now) at [] }
{
    columns[at]
}

/// What a column has for a vertex; 0 where it is too short.
#[inline(always)]
fn number_at(column: &[u64], vertex: u32) -> u64
    ensures { result ≡ slice_index column.now vertex }
{
    let place = vertex as usize;
    if place < column.len() {
        column[place]
    } else {
        0
    }
}

/// Writes two numbers one after the other.
#[inline(always)]
fn write_numbers(bytes: &mut [u8], first: u64, second: u64)
    requires { length bytes.old ≡ COLUMN_BYTES }
    ensures { bytes.new ≡ bytes_of w64 first ++ bytes_of w64 second }
{
    bytes[..NUMBER_BYTES].copy_from_slice(&first.to_le_bytes());
    bytes[NUMBER_BYTES..].copy_from_slice(&second.to_le_bytes());
}

/// Writes what columns have for the ends of an edge.
pub(crate) fn write_ends(bytes: &mut [u8], columns: &[&[u64]], edge: Edge)
    requires { length bytes.old ≡ COLUMN_BYTES * length columns.now }
    ensures { bytes.new ≡ end_bytes (map (λ column. column.now) columns.now) edge.source edge.target }
{
    'columns: for at in 0..columns.len() {
        let column = column_at(columns, at);
        let from = COLUMN_BYTES * at;
        write_numbers(
            &mut bytes[from..from + COLUMN_BYTES],
            number_at(column, edge.source),
            number_at(column, edge.target),
        );
    }
}

/// Gathers what columns have for the ends of a block's edges.
#[inline(always)]
pub(crate) fn gather_ends(edges: &mut Edges, columns: &[&[u64]])
    requires columns { length columns.now ≤ MOST_COLUMNS }
    requires few { edges.old.count ≤ LANES }
    ensures end_count { edges.new.end_count ≡ 2 * length columns.now }
    ensures ends { (k : ℕ) → k < edges.old.count → take (2 * length columns.now) (row edges.new.ends k)
        ≡ ends_of (map (λ column. column.now) columns.now) (slice_index edges.old.sources k)
        (slice_index edges.old.targets k) }
    ensures count { edges.new.count ≡ edges.old.count }
    ensures sources { edges.new.sources ≡ edges.old.sources }
    ensures targets { edges.new.targets ≡ edges.old.targets }
    ensures places { edges.new.places ≡ edges.old.places }
    ensures degrees { edges.new.degrees ≡ edges.old.degrees }
{
    'columns: for at in 0..columns.len() {
        let column = column_at(columns, at);
        gather_end(&mut edges.ends, 2 * at, column, &edges.sources, edges.count);
        gather_end(
            &mut edges.ends,
            2 * at + 1,
            column,
            &edges.targets,
            edges.count,
        );
    }
    edges.end_count = 2 * columns.len();
}

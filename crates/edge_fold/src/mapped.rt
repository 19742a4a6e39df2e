//! What runs over edges are runs of.
ghost use Rattle.std.specs.Prelude.{◌≡◌, ◌+◌, ◌*◌, ◌≤◌, length};
ghost use Rattle.map_model.specs.declared.limits.TheConstants.{EDGE_BYTES, COLUMN_BYTES, MOST_COLUMNS};

use map_model::Reduction;
use verifier::Verified;
use version::Version;

/// What runs over edges are runs of: a verified program, with an argument and columns that fit its record, on the edges of a
/// version.
#[derive(Clone, Copy)]
pub struct Mapped<'a> {
    /// The version whose edges they are.
    pub version: &'a Version,
    /// The program that is run on each edge.
    pub program: &'a Verified,
    /// What its record has after the edge: the record's length less 16 bytes, and less 16 for each column.
    pub argument: &'a [u8],
    /// Up to 8 columns, each with a number for each vertex. After the argument the record has of each column in turn the number of
    /// the edge's source and that of its target, eight bytes each; 0 where a column is too short for a vertex.
    pub columns: &'a [&'a [u64]],
    ghost fits: { length argument.now + EDGE_BYTES + COLUMN_BYTES * length columns.now ≡ program.now.record_length },
    ghost few: { length columns.now ≤ MOST_COLUMNS },
}

/// The vertices whose edges are mapped, and what the numbers of these become.
#[derive(Clone, Copy)]
pub struct Request<'a> {
    /// The vertices. One that is outside the graph has no edge, and one that stands twice is mapped twice.
    pub frontier: &'a [u32],
    /// What the numbers are reduced to.
    pub reduction: Reduction,
}

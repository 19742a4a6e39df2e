//! Limits of maps over edges. Clauses and definitions cite them by name.
use bpf_image::LEAST_RECORD_LENGTH;

/// How many bytes of its record are the edge's own. The argument comes after them.
pub const EDGE_BYTES: usize = LEAST_RECORD_LENGTH as usize;

/// The most columns that a record has numbers of.
pub const MOST_COLUMNS: usize = 8;

/// How many bytes of its record an edge has of each column: the number of its source, and that of its target.
pub const COLUMN_BYTES: usize = 16;

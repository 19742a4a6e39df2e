//! What lines say.

use map_model::Reduction;
use session_model::Way;

/// A line inside a batch. A number from 2^64 - 1 on stands as 2^64 - 1, which no graph has as a vertex.
#[derive(Clone, Copy)]
pub(crate) enum BatchLine {
    /// An edge is inserted.
    Insert { source: u64, target: u64 },
    /// An edge is removed.
    Remove { source: u64, target: u64 },
    /// The batch ends.
    End,
}

/// What a command that lends columns asks for. Numbers stand as in a `BatchLine`.
#[derive(Drop)]
pub(crate) struct Asking<'a> {
    pub program: &'a [u8],
    pub pin: &'a [u8],
    pub reduction: Reduction,
    pub argument: Vec<u8>,
    pub columns: Vec<&'a [u8]>,
    pub frontier: Vec<u64>,
}

/// A line outside blocks that has words. Numbers stand as in a `BatchLine`.
#[derive(Drop)]
pub(crate) enum Statement<'a> {
    /// A graph of so many vertices.
    Graph {
        vertices: u64,
    },
    /// A batch of edits begins, of a feed (0 for A, 3 for D).
    Batch {
        feed: u8,
    },
    /// A program's name, record length and code.
    Code {
        name: &'a [u8],
        record_length: u64,
        code: Vec<u8>,
    },
    /// A program's name, and the bytes of its image.
    Image {
        name: &'a [u8],
        bytes: Vec<u8>,
    },
    /// A program in assembler text begins, with its name and record length.
    Program {
        name: &'a [u8],
        record_length: u64,
    },
    /// A name for the last version.
    Pin {
        name: &'a [u8],
    },
    /// A program mapped over the edges of a pin.
    Run {
        program: &'a [u8],
        pin: &'a [u8],
        reduction: Reduction,
        argument: Vec<u8>,
        frontier: Vec<u64>,
    },
    /// Where the last version keeps a vertex's neighbours.
    Home {
        vertex: u64,
    },
    /// The last version's graph becomes the base of a new epoch.
    Rebase,
    /// All edges of a pin with the numbers of a program.
    List {
        program: &'a [u8],
        pin: &'a [u8],
        argument: Vec<u8>,
    },
    /// Numbers of a column from a vertex on.
    Column {
        name: &'a [u8],
        first: u64,
        numbers: Vec<u64>,
    },
    /// The numbers of a column at vertices.
    Values {
        name: &'a [u8],
        frontier: Vec<u64>,
    },
    /// A program mapped over the edges of a pin with columns.
    PullRows {
        asking: Asking<'a>,
    },
    /// A program run with columns, and a column that it writes.
    WriteColumn {
        way: Way,
        asking: Asking<'a>,
        into: &'a [u8],
    },
}

/// What a line outside blocks says.
#[derive(Drop)]
pub(crate) enum Line<'a> {
    /// It has no word, or is a comment.
    Skipped,
    /// It is no statement.
    Unknown,
    Statement(Statement<'a>),
}

//! What a session can be asked for.

use map_model::Reduction;
use past_model::Edit;
use session_model::Way;

/// What a command that lends columns asks for: a program, a pin and columns by their names, how numbers are reduced, the
/// argument's bytes, and the frontier. An empty frontier stands for all vertices.
#[derive(Clone, Copy, Debug)]
pub struct Asked<'a, 'b> {
    pub program: &'a [u8],
    pub pin: &'a [u8],
    pub reduction: Reduction,
    pub argument: &'a [u8],
    pub columns: &'a [&'b [u8]],
    pub frontier: &'a [u64],
}

/// A command. Numbers are tested when it is performed.
#[derive(Debug, Drop)]
pub enum Command<'a, 'b> {
    /// A graph of so many vertices.
    MakeGraph {
        vertices: u64,
    },
    /// A batch of edits, from a feed (0 for A).
    PublishBatch {
        feed: u8,
        edits: Vec<Edit>,
    },
    /// A program under a name: the length of its record in bytes, and its code.
    LoadProgram {
        name: &'a [u8],
        record_length: u64,
        code: Vec<u8>,
    },
    /// The program of an image's bytes, under a name.
    LoadImage {
        name: &'a [u8],
        bytes: Vec<u8>,
    },
    /// A name for the last version.
    TakePin {
        name: &'a [u8],
    },
    /// A program mapped over the edges of a pin, both by their names, with the argument's bytes. An
    /// empty frontier stands for all vertices.
    RunProgram {
        program: &'a [u8],
        pin: &'a [u8],
        reduction: Reduction,
        argument: &'a [u8],
        frontier: &'a [u64],
    },
    /// Where the last version keeps a vertex's neighbours.
    ReportHome {
        vertex: u64,
    },
    /// The last version's graph becomes the base of a new epoch, whose log is empty.
    Rebase,
    /// All edges of a pin, each with the number that a program exits with for it, both by their names, with the
    /// argument's bytes.
    ListEdges {
        program: &'a [u8],
        pin: &'a [u8],
        argument: Vec<u8>,
    },
    /// Numbers of a column from a vertex on. If no column has the name, it is made, with 0 at all other vertices.
    SetColumn {
        name: &'a [u8],
        first: u64,
        numbers: &'a [u64],
    },
    /// The numbers of a column at vertices. An empty list stands for all vertices whose number is not 0.
    ShowValues {
        name: &'a [u8],
        frontier: &'a [u64],
    },
    /// A program mapped over the edges of a pin with columns, a row for each vertex with a neighbour.
    PullRows {
        asked: Asked<'a, 'b>,
    },
    /// A program run with columns for the edges of a pin, or for its vertices, whose numbers go into a column in one of three
    /// ways.
    WriteColumn {
        way: Way,
        asked: Asked<'a, 'b>,
        into: &'a [u8],
    },
}

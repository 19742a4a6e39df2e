//! What a session can answer.

ghost use Rattle.std.specs.Prelude.{◌≡◌};
ghost use Rattle.session.specs.Kept.{listing_of};

use crate::listing::Listing;
use bpf_image::ImageError;
use map_model::Row;
use past_model::Home;
use session_model::Way;
use verifier::Refusal;

/// The answer to a command, with the names that the command gave.
#[derive(Drop)]
pub enum Answer<'a> {
    /// There is a graph of so many vertices now.
    GraphMade {
        vertices: u64,
    },
    /// A batch is published: the feed it came by, the new version's number, and how many edges it added
    /// and removed.
    BatchPublished {
        feed: u8,
        number: u64,
        added: u64,
        removed: u64,
    },
    /// A program is kept: the most instructions that a run executes, and the frames that it needs.
    ProgramAccepted {
        name: &'a [u8],
        bound: u32,
        frames: u8,
    },
    /// A program is not kept, since it breaks a rule.
    ProgramRefused {
        name: &'a [u8],
        refusal: Refusal,
    },
    /// A program is not kept, since no image has code of that length, or is spelled by these bytes.
    NoImage {
        name: &'a [u8],
        error: ImageError,
    },
    /// The last version has a name: its number, and how many edges it has.
    PinTaken {
        name: &'a [u8],
        number: u64,
        edges: u64,
    },
    /// A program was mapped: how many edges there were, what their numbers reduce to, and a row for each
    /// vertex of the frontier with a neighbour.
    EdgesMapped {
        program: &'a [u8],
        pin: &'a [u8],
        edges: u64,
        total: u64,
        rows: Vec<Row>,
    },
    /// Where the last version keeps a vertex's neighbours, and how many they are.
    HomeReported {
        vertex: u64,
        home: Home,
        degree: u32,
    },
    /// A new epoch began: how many ended before it, and how many edges there are.
    Rebased {
        epoch: u64,
        edges: u64,
    },
    /// How many edges a pin has, and each of them with its number, which is run when it is asked for.
    EdgesListed {
        program: &'a [u8],
        pin: &'a [u8],
        edges: u64,
        listing: Listing,
    },
    /// So many numbers of a column are set.
    ColumnSet {
        name: &'a [u8],
        count: u64,
    },
    /// The numbers of a column at vertices.
    ValuesShown {
        rows: Vec<Row>,
    },
    /// As `EdgesMapped`, with columns.
    RowsPulled {
        program: &'a [u8],
        pin: &'a [u8],
        edges: u64,
        total: u64,
        rows: Vec<Row>,
    },
    /// A column is written: the way, for how many edges (or vertices, of `Each`) the program was run, what the exit numbers
    /// reduce to, and at how many vertices the column has another number than before.
    ColumnWritten {
        way: Way,
        program: &'a [u8],
        pin: &'a [u8],
        count: u64,
        total: u64,
        changed: u64,
    },
}

impl<'a> Answer<'a> {
    /// The edges that it lists, if it does.
    pub fn into_listing(self) -> Option<Listing>
        ensures { result ≡ listing_of self.entry }
    {
        match self {
            Answer::EdgesListed {
                program: _program,
                pin: _pin,
                edges: _edges,
                listing,
            } => Some(listing),
            _other => None,
        }
    }
}

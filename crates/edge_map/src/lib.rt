//! A verified program mapped over the edges of a version by several workers, with the answer of one; and a list of all
//! edges with their numbers.
#![tactic(auto)]

mod alone;
mod done;
mod errors;
mod frontier;
mod job;
mod joined;
mod limits;
mod list;
mod map;
mod piece;
mod plan;
mod shares;
mod targets;
mod walk;
mod work;

pub use edge_fold::{MapOutcome, Mapped, Reduction, Request, Row, Verified};
pub use errors::MapError;
pub use job::{Job, JobOutcome, Wanted};
pub use limits::{BLOCK_EDGES, PIECE_VERTICES};
pub use list::{EdgeList, list_edges};
pub use map::{MapRequest, map_edges, map_sources};
pub use map_model::ListedEdge;
pub use shares::do_job;
pub use store::Pin;
pub use workers::{Crew, Gate, OpenGate, Workers};

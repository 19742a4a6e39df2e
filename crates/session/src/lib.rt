//! A session: it performs commands on a graph that is edited by batches, on programs, on pins and on columns, and
//! answers with data. It knows nothing of a script's bytes, lines and text.
#![tactic(auto)]

mod answer;
mod batches;
mod columns;
mod command;
mod error;
mod frontier;
mod graphs;
mod handles;
mod homes;
mod kept;
mod lending;
mod listing;
mod lists;
mod pins;
mod programs;
mod rebases;
mod runs;
mod session;

pub use answer::Answer;
pub use batches::GivenEdit;
pub use command::{Asked, Command};
pub use edge_map::{EdgeList, ListedEdge};
pub use error::CommandError;
pub use listing::Listing;
pub use session::Session;
pub use session_model::{Fault, Way};
pub use workers::{Crew, Gate, OpenGate, Workers};

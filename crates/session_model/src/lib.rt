//! What the commands of a session mean: a graph that is edited by batches, programs that are kept, pins,
//! and columns. Definitions (in `specs/`) and the types that they name; nothing here knows of a script's bytes.
#![tactic(auto)]

mod fault;
mod limits;
mod way;

pub use fault::Fault;
pub use limits::{MOST_KEPT, MOST_KEPT_COLUMNS};
pub use way::Way;

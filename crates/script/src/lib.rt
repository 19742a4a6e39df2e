//! A script line by line: it turns lines into the commands of a session and answers into text, and
//! counts lines. Where bytes come from and where text goes is not its concern.
#![tactic(auto)]

mod answers;
mod batches;
mod block;
mod error;
mod line;
mod listed;
mod programs;
mod reading;
mod script;
mod statements;
mod texts;

pub use error::ScriptError;
pub use listed::EdgeLines;
pub use script::{Script, Step};
pub use script_model::{Ending, MOST_LINE_BYTES};
pub use session::{Crew, Gate, Listing, OpenGate, Workers};

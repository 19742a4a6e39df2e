//! The service: it reads a script, splits it into lines, has them executed, and writes what they say.
#![tactic(auto)]

mod ends;
mod lines;
mod reporting;
mod serve_error;
mod serving;
mod writing;

pub use ends::{Failure, Input, Output, StdInput, StdOutput};
pub use reporting::report;
pub use script::{Crew, Ending, Gate, OpenGate, Workers};
pub use serve_error::ServeError;
pub use serving::serve;

//! How the program ends.

ghost use Rattle.std.specs.Prelude.{◌≡◌};
ghost use Rattle.service.specs.Report.{status_of, line_of};

use crate::serve_error::ServeError;
use script::Ending;

/// How a program ends that served a script: its exit status, 0 only where the script is complete, and
/// the line that it writes to standard error, without its end; empty where there is none.
pub fn report(answer: &Result<Ending, ServeError>) -> (u8, &'static str)
    ensures status { result.0 ≡ status_of answer.now }
    ensures line { result.1.now ≡ line_of answer.now }
{
    match answer {
        Ok(Ending::Complete) => (0, ""),
        Ok(Ending::Fault) => (1, ""),
        Err(ServeError::Read) => (1, "edgebpf: read"),
        Err(ServeError::Write) => (1, "edgebpf: write"),
        Err(ServeError::OutOfMemory) => (1, "edgebpf: memory"),
        Err(ServeError::WorkerRefused) => (1, "edgebpf: worker"),
        Err(ServeError::Store) => (1, "edgebpf: store"),
    }
}

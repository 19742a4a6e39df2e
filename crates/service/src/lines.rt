//! The lines of what was read.

ghost use Rattle.std.specs.Prelude.{MatchOption};
ghost use Rattle.script.specs.Executes.{OnStore};
ghost use Rattle.service.specs.Asking.{Asks};
ghost use Rattle.service.specs.Served.{IsOneLine, IsLine, TakesLines, LeavesFew};

use memchr::memchr;
use script::{Crew, Gate, Listing, MOST_LINE_BYTES, Script, ScriptError, Step};
use std::sync::Wait;
use std::thread::Threads;

/// Where the first line ends, if it does.
fn line_end(bytes: &[u8]) -> Option<usize>
    ensures { MatchOption result (IsOneLine bytes.now) (λ k. IsLine bytes.now k) }
{
    memchr(b'\n', bytes)
}

/// How far some bytes of a script led.
#[derive(Drop)]
pub enum Progress {
    /// All whole lines were executed, and the next one begins at this place.
    Left(usize),
    /// The lines before this place were executed, but for the lines of the edges that the last of them lists.
    Lists(usize, Listing),
    /// A line has a fault, which is said.
    Settled,
}

/// Executes the whole lines of some bytes, up to the first that lists edges.
// By itself the loop keeps its places in registers. As part of its caller it takes two instructions more a line.
#[inline(never)]
fn execute_lines<Ga: Gate, R: Threads + Wait>(
    crew: &Crew<'_, R, Ga>,
    script: &mut Script,
    text: &mut Vec<u8>,
    bytes: &[u8],
) -> Result<Progress, ScriptError>
    ensures taken { TakesLines result bytes.now script.old script.new text.old.items text.new.items }
    ensures store { OnStore result (Asks script.old bytes.now) }
{
    let mut from = 0;
    loop {
        let Some(end) = line_end(&bytes[from..]) else {
            return Ok(Progress::Left(from));
        };
        match script.execute(crew, text, &bytes[from..from + end])? {
            Step::Executed => from += end + 1,
            Step::Lists(listing) => return Ok(Progress::Lists(from + end + 1, listing)),
            Step::Stopped => return Ok(Progress::Settled),
        }
    }
}

/// Executes the whole lines of what was read, up to the first that lists edges. A line that is too long is a fault
/// before its end comes.
pub(crate) fn execute_read<Ga: Gate, R: Threads + Wait>(
    crew: &Crew<'_, R, Ga>,
    script: &mut Script,
    text: &mut Vec<u8>,
    bytes: &[u8],
) -> Result<Progress, ScriptError>
    ensures taken { TakesLines result bytes.now script.old script.new text.old.items text.new.items }
    ensures few { LeavesFew result bytes.now }
    ensures store { OnStore result (Asks script.old bytes.now) }
{
    let progress = execute_lines(crew, script, text, bytes)?;
    if let Progress::Left(from) = progress
        && bytes.len() - from > MOST_LINE_BYTES
    {
        script.stop_at_long_line(text)?;
        return Ok(Progress::Settled);
    }
    Ok(progress)
}

//! Scripts at the limits: it prints how each ended, and how long its text is, with a digest of it.
mod digest;
mod recipes;

use crate::limits::digest::Digest;
use crate::limits::recipes::script_of;
use service::{Crew, OpenGate, StdInput, Workers, report, serve};
use std::alloc::Global;
use std::io;
use std::sync::Wait;
use std::thread::Threads;

/// Serves the scripts that a text describes, each by as many workers as it says.
pub(crate) fn serve_limits<R: Print + Threads + Wait>(
    rt: &R,
    alloc: Global,
    text: &str,
) -> io::Result<()> {
    // What stands before the first one says what the text is.
    for part in text.split('%').skip(1) {
        let (head, lines) = part.split_once('\n').unwrap_or((part, ""));
        let (name, count) = head.split_once(' ').unwrap_or((head, ""));
        let workers = Workers::new(count.parse::<u8>().unwrap_or(1)).unwrap_or(Workers::one());
        let script = script_of(alloc, lines)?;
        let mut input = StdInput::new(script.as_bytes());
        let mut output = Digest::new();
        let crew = Crew {
            rt,
            workers,
            gate: &OpenGate,
        };
        let answer = serve(&crew, alloc, &mut input, &mut output);
        let Crew {
            rt: _,
            workers: _,
            gate: _,
        } = crew;
        let (status, line) = report(&answer);
        let (length, digest) = (output.length(), output.digest());
        println!(rt; "{name} by {count}: status {status}{line}, {length} bytes, digest {digest}")?;
    }
    Ok(())
}

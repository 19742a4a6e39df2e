//! Serves the scripts that its standard input has in rows, and prints for each row whether it came as the row wants; then those at the
//! limits, which it describes.
#![tactic(auto)]

mod kept;
mod limits;
mod recipes;
mod row;

use kept::Kept;
use limits::serve_limits;
use row::Row;
use service::{Crew, OpenGate, StdInput, Workers, report, serve};
use std::alloc::Global;
use std::io;
use std::sync::Wait;
use std::thread::Threads;

/// How many workers serve each script, in turn.
const WORKERS: [u8; 3] = [1, 2, 16];

/// Serves a row's script by so many workers. If it did not come as the row wants, this is printed.
fn came_so<R: Print + Threads + Wait>(
    rt: &R,
    alloc: Global,
    row: &Row<'_>,
    count: u8,
) -> io::Result<bool> {
    let workers = Workers::new(count).unwrap_or(Workers::one());
    let mut input = StdInput::new(row.script());
    let mut output = Kept::new(alloc);
    let crew = Crew {
        rt,
        workers,
        gate: &OpenGate,
    };
    let answer = serve(&crew, alloc, &mut input, &mut output);
    let Crew {
        rt: _,
        workers: _,
        gate: _,
    } = crew;
    let is_wanted = row.wants(output.bytes(), &answer);
    if !is_wanted {
        let (status, line) = report(&answer);
        let text = str::from_utf8(output.bytes()).unwrap_or("what is no text");
        println!(rt; "with {count} workers, status {status}{line}, and this was written:\n{text}")?;
    }
    Ok(is_wanted)
}

/// Serves a row's script by each number of workers, up to the first with which it did not come as the row wants.
fn came_always<R: Print + Threads + Wait>(
    rt: &R,
    alloc: Global,
    row: &Row<'_>,
) -> io::Result<bool> {
    for count in WORKERS {
        if !came_so(rt, alloc, row, count)? {
            return Ok(false);
        }
    }
    Ok(true)
}

/// Serves the rows of a text, and prints how each came.
fn serve_rows<R: Print + Threads + Wait>(rt: &R, alloc: Global, text: &str) -> io::Result<()> {
    let text = text.strip_suffix('\n').unwrap_or(text);
    // What stands before the first head says what the file is.
    for section in text.split("\n%^ ").skip(1) {
        let mut parts = section.split("\n%% ");
        let head = Row::read(alloc, parts.next().unwrap_or(""))?;
        for part in parts {
            let row = Row::read(alloc, part)?.behind(&head)?;
            let told = if came_always(rt, alloc, &row)? {
                "ok"
            } else {
                "WRONG"
            };
            println!(rt; "{told} {}: {}", head.name(), row.name())?;
        }
    }
    Ok(())
}

fn main(rt: HostRuntime) -> io::Result<()> {
    let alloc = rt.alloc();
    let text = io::read_to_string(alloc, rt.stdin())?;
    let (rows, limits) = text.split_once("\n%! ").unwrap_or((&text, ""));
    serve_rows(&rt, alloc, rows)?;
    serve_limits(&rt, alloc, limits)
}

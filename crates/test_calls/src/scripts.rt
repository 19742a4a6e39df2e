//! Whole scripts at ends that fail, or that give or take few bytes at once, and what a gate sees of one. What a script means is
//! tried by `test_script_rows`.
use crate::scripts::ends::{Balking, Interrupted};
use service::{Crew, Ending, Gate, OpenGate, ServeError, StdInput, StdOutput, Workers, serve};
use std::alloc::{AllocError, Global};
use std::sync::Wait;
use std::test::Fail;
use std::thread::Threads;
use workers::HoldingGate;

mod ends;

/// A script that says something at most of its lines, and what it says.
const SCRIPT: &str =
    "graph 4\nbatch A\n+ 0 1\n+ 0 2\n+ 1 2\nend\ncode t 16 61100400000000009500000000000000\npin a\nrun t a sum -\nrun t a min - 1\nlist t a -\nprogram s 16\nmov r0 7\nend\nlist";

const SAID: &str =
    "graph 4\nbatch A version 1 added 3 removed 0\nprogram t bound 2 frames 1\npin a version 1 edges 3\nrun t a edges 3 total 5\nrow 0 3\nrow 1 2\nrun t a edges 1 total 2\nrow 1 2\nlist t a edges 3\nedge 0 1 1\nedge 0 2 2\nedge 1 2 2\nassembler s error 1 line 1\nfault 2 line 15\n";

/// Serves a script to a writer, where one read, if any, is interrupted.
fn served<G: Gate, R: Threads + Wait>(
    crew: &Crew<'_, R, G>,
    alloc: Global,
    input: Interrupted<'_>,
    output: &mut Balking,
) -> Result<Ending, ServeError> {
    let mut input = StdInput::new(input);
    let mut output = StdOutput::new(output);
    serve(crew, alloc, &mut input, &mut output)
}

/// Serves a script by one worker.
fn served_alone<R: Threads + Wait>(
    rt: &R,
    alloc: Global,
    input: Interrupted<'_>,
    output: &mut Balking,
) -> Result<Ending, ServeError> {
    let crew = Crew {
        rt,
        workers: Workers::one(),
        gate: &OpenGate,
    };
    let answer = served(&crew, alloc, input, output);
    let Crew {
        rt: _,
        workers: _,
        gate: _,
    } = crew;
    answer
}

/// Serves `SCRIPT`, read in parts of so many bytes, by one worker.
fn served_in_parts<R: Threads + Wait>(
    rt: &R,
    alloc: Global,
    most: usize,
    at: u64,
    output: &mut Balking,
) -> Result<Ending, ServeError> {
    let input = Interrupted {
        bytes: SCRIPT.as_bytes(),
        most,
        at,
        reads: 0,
    };
    served_alone(rt, alloc, input, output)
}

#[test]
fn parts_of_any_size(rt: HostRuntime) {
    for (read, written) in [(1, 3), (1, 1), (7, 2), (100, 5)] {
        let mut output = Balking::new(rt.alloc(), written, 0, false);
        let answer = served_in_parts(&rt, rt.alloc(), read, 0, &mut output);
        assert_eq!(rt; answer, Ok(Ending::Fault));
        assert_eq!(rt; output.bytes.as_slice(), SAID.as_bytes());
    }
}

/// `SCRIPT` after 100 comments of 1,000 bytes each, their line ends counted.
fn commented(alloc: Global) -> Result<String, AllocError> {
    let mut script = String::new(alloc);
    for _ in 0..100 {
        for _ in 0..111 {
            script.push_str("#comment-")?;
        }
        script.push_str("\n")?;
    }
    script.push_str(SCRIPT)?;
    Ok(script)
}

// More than 100,000 reads of one byte each.
#[test]
fn a_long_script_byte_by_byte(rt: HostRuntime) -> Result<(), Fail> {
    let script = commented(rt.alloc())?;
    let input = Interrupted {
        bytes: script.as_bytes(),
        most: 1,
        at: 0,
        reads: 0,
    };
    let mut output = Balking::new(rt.alloc(), usize::MAX, 0, false);
    let answer = served_alone(&rt, rt.alloc(), input, &mut output);
    let (said, _) = SAID.split_at(SAID.len() - "15\n".len());
    let mut wanted = String::new(rt.alloc());
    wanted.push_str(said)?;
    wanted.push_str("115\n")?;
    assert_eq!(rt; answer, Ok(Ending::Fault));
    assert_eq!(rt; output.bytes.as_slice(), wanted.as_str().as_bytes());
    Ok(())
}

// The end of the input is a read too.
#[test]
fn failing_reads(rt: HostRuntime) {
    for at in 0..SCRIPT.len() + 1 {
        let mut output = Balking::new(rt.alloc(), usize::MAX, 0, false);
        let answer = served_in_parts(&rt, rt.alloc(), 1, at as u64 + 1, &mut output);
        assert_eq!(rt; answer, Err(ServeError::Read), "{at}");
        assert!(rt; SAID.as_bytes().starts_with(&output.bytes), "{at}");
    }
}

#[test]
fn failing_writes(rt: HostRuntime) {
    for at in 0..SAID.len() {
        let mut output = Balking::new(rt.alloc(), 1, at as u64 + 1, at % 2 == 0);
        let answer = served_in_parts(&rt, rt.alloc(), 20, 0, &mut output);
        assert_eq!(rt; answer, Err(ServeError::Write), "{at}");
        assert_eq!(rt; output.bytes.as_slice(), &SAID.as_bytes()[..at]);
    }
}

/// A script that lists 9,000 edges, 3,000 from each of three vertices.
fn long_list(alloc: Global) -> Result<String, AllocError> {
    let mut script = String::new(alloc);
    script.push_str("graph 3000\nbatch A\n")?;
    for edge in 0..9_000 {
        let line = format!(in alloc; "+ {} {}\n", edge / 3_000, edge % 3_000)?;
        script.push_str(&line)?;
    }
    script.push_str("end\ncode t 16 61100400000000009500000000000000\npin a\nlist t a -")?;
    Ok(script)
}

/// How a script ends that is read at once, and how often it wrote.
fn served_whole<G: Gate, R: Threads + Wait>(
    rt: &R,
    alloc: Global,
    script: &str,
    workers: Workers,
    gate: &G,
) -> (Result<Ending, ServeError>, u64) {
    let input = Interrupted {
        bytes: script.as_bytes(),
        most: usize::MAX,
        at: 0,
        reads: 0,
    };
    let mut output = Balking::new(alloc, usize::MAX, 0, false);
    let crew = Crew { rt, workers, gate };
    let answer = served(&crew, alloc, input, &mut output);
    let Crew {
        rt: _,
        workers: _,
        gate: _,
    } = crew;
    (answer, output.writes)
}

// 9,000 edges are two blocks of 4,096 and one of 808. Besides these there is a write for the one read of the script, and one for
// the first line of the list.
#[test]
fn a_list_is_written_in_blocks(rt: HostRuntime) -> Result<(), Fail> {
    let script = long_list(rt.alloc())?;
    let answer = served_whole(&rt, rt.alloc(), &script, Workers::one(), &OpenGate);
    assert_eq!(rt; answer, (Ok(Ending::Complete), 5));
    Ok(())
}

/// How often a script's pieces were entered and left with so many workers, a digit of 16 for each piece, and how many
/// waited in vain until `inside` were entered; none where the script does not come to its end.
fn seen<R: Threads + Wait>(
    rt: &R,
    alloc: Global,
    script: &str,
    count: u8,
    inside: u64,
) -> Option<[u64; 3]> {
    let gate = HoldingGate::until(inside);
    let workers = Workers::new(count)?;
    let (answer, _) = served_whole(rt, alloc, script, workers, &gate);
    if answer != Ok(Ending::Complete) {
        return None;
    }
    Some([gate.entered(), gate.left(), gate.in_vain()])
}

// Edits of two ranges of 256 vertices, and of four.
const TWO_RANGES: &str = "graph 1024\nbatch A\n+ 0 1\n+ 300 1\nend\n";

// The pieces of a batch are the numbers of its ranges, also where it leaves some out.
const SECOND_AND_FOURTH: &str = "graph 1024\nbatch A\n+ 300 1\n+ 1000 1\nend\n";

const FOUR_RANGES: &str = "graph 1024\nbatch A\n+ 0 1\n+ 300 1\n+ 600 1\n+ 1000 1\nend\n";

// Runs over graphs without an edge, of 64 vertices for each of two pieces, and of four.
const TWO_PIECES: &str =
    "graph 128\ncode t 16 61100400000000009500000000000000\npin a\nrun t a sum -\n";

const FOUR_PIECES: &str =
    "graph 256\ncode t 16 61100400000000009500000000000000\npin a\nrun t a sum -\n";

// Commands with a column over graphs without an edge. They have a piece for each worker, and 64 vertices at least for each piece.
const PULL: &str =
    "graph 256\ncode t 32 61100400000000009500000000000000\npin a\ncolumn x 0 1\npull t a sum - x -\n";

const PULL_INTO: &str =
    "graph 256\ncode t 32 61100400000000009500000000000000\npin a\ncolumn x 0 1\npull t a sum - x x\n";

const PUSH: &str =
    "graph 256\ncode t 32 61100400000000009500000000000000\npin a\ncolumn x 0 1\npush t a sum - x x\n";

const EACH: &str =
    "graph 256\ncode t 32 61100400000000009500000000000000\npin a\ncolumn x 0 1\neach t a sum - x x\n";

// As many workers as there are pieces are inside at once, and so are three of four pieces.
#[test]
fn workers_are_inside_at_once(rt: HostRuntime) {
    for (script, workers, inside, pieces) in [
        (PULL, 2, 2, 0x11),
        (PULL, 4, 4, 0x1111),
        (PULL, 16, 4, 0x1111),
        (PULL_INTO, 3, 3, 0x111),
        (PUSH, 3, 3, 0x111),
        (EACH, 3, 3, 0x111),
        (TWO_RANGES, 2, 2, 0x11),
        (SECOND_AND_FOURTH, 2, 2, 0x1010),
        (FOUR_RANGES, 4, 4, 0x1111),
        (FOUR_RANGES, 3, 3, 0x1111),
        (TWO_PIECES, 2, 2, 0x11),
        (FOUR_PIECES, 4, 4, 0x1111),
        (FOUR_PIECES, 3, 3, 0x1111),
    ] {
        let told = seen(&rt, rt.alloc(), script, workers, inside);
        assert_eq!(rt; told, Some([pieces, pieces, 0]), "{script} by {workers}");
    }
}

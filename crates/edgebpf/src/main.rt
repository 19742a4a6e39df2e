//! The program: it serves the script on standard input, and writes what it says to standard output.
#![tactic(auto)]

use clap::Error;
use clap::error::ErrorKind as Kind;
use command_line::options;
use service::{Crew, OpenGate, StdInput, StdOutput, Workers, report, serve};
use std::io::ErrorKind;
use std::process::ExitCode;
use std::{env, io};

/// The status if a read, a write, memory or a thread failed.
const FAILED: u8 = 1;
/// The status if the words of the command line are not allowed, or ask for help.
const WRONG_WORDS: u8 = 2;

/// Prints what clap answers in place of options, and returns the status. The version goes to standard output; help and
/// what is wrong with the words go to standard error.
fn status_of_words(rt: &HostRuntime, answer: &Error) -> u8 {
    if !matches!(answer.kind(), Kind::DisplayVersion) {
        // If standard error takes nothing, only the status is left.
        let _ = eprint!(rt; "{answer}");
        return WRONG_WORDS;
    }
    if answer.print(rt).is_err() {
        let _ = eprintln!(rt; "edgebpf: write");
        return FAILED;
    }
    0
}

fn main(rt: HostRuntime) -> ExitCode {
    let alloc = rt.alloc();
    let given: io::Result<Vec<String>> = env::args(&rt).and_then(|words| Ok(words.collect(alloc)?));
    let words = match given {
        Ok(words) => words,
        Err(error) if error.kind() == ErrorKind::InvalidData => {
            let _ = eprintln!(rt; "edgebpf: a word is not UTF-8");
            return ExitCode::from(WRONG_WORDS);
        }
        Err(_) => {
            let _ = eprintln!(rt; "edgebpf: memory");
            return ExitCode::from(FAILED);
        }
    };
    let count = match options(alloc, &words) {
        Ok(count) => count,
        Err(answer) => return ExitCode::from(status_of_words(&rt, &answer)),
    };
    let workers = Workers::new(count).unwrap_or(Workers::one());
    let mut input = StdInput::new(rt.stdin());
    let mut output = StdOutput::new(rt.stdout());
    let crew = Crew {
        rt: &rt,
        workers,
        gate: &OpenGate,
    };
    let answer = serve(&crew, alloc, &mut input, &mut output);
    let Crew {
        rt: _,
        workers: _,
        gate: _,
    } = crew;
    let (status, line) = report(&answer);
    if !line.is_empty() {
        let _ = eprintln!(rt; "{line}");
    }
    ExitCode::from(status)
}

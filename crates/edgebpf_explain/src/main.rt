//! The program: it prints the verifier's state before each instruction of a BPF program, and why one is refused.
#![tactic(auto)]

mod pace;
mod telling;
mod words;

use explanation::Judgement;
use std::alloc::Global;
use std::io::ErrorKind;
use std::process::ExitCode;
use std::{env, io};
use telling::{Failure, Told, told_of_digits, told_of_text};
use words::{Asked, options};

/// The status if there is nothing to explain: the words are not allowed, or ask for help.
const WRONG_WORDS: u8 = 2;

/// Explains what the words hand in.
fn told(rt: &HostRuntime, alloc: Global, asked: &Asked) -> Result<Told, Failure> {
    match &asked.code {
        Some(digits) => told_of_digits(alloc, asked, digits),
        None => {
            let Ok(text) = io::read_to_string(alloc, rt.stdin()) else {
                return Err(Failure::Input);
            };
            told_of_text(alloc, asked, &text)
        }
    }
}

/// Prints an explanation, and returns the status.
fn written(rt: &HostRuntime, told: &Told) -> ExitCode {
    let text = &told.explanation.text;
    let (written, status) = match told.explanation.judgement {
        Judgement::Accepted { .. } => (print!(rt; "{text}{}", told.pace), 0),
        Judgement::Refused(_) => (print!(rt; "{text}"), 1),
    };
    if written.is_err() {
        let _ = eprintln!(rt; "edgebpf-explain: write");
        return ExitCode::from(WRONG_WORDS);
    }
    ExitCode::from(status)
}

fn main(rt: HostRuntime) -> ExitCode {
    let alloc = rt.alloc();
    let given: io::Result<Vec<String>> = env::args(&rt).and_then(|words| Ok(words.collect(alloc)?));
    let words = match given {
        Ok(words) => words,
        Err(error) if error.kind() == ErrorKind::InvalidData => {
            let _ = eprintln!(rt; "edgebpf-explain: a word is not UTF-8");
            return ExitCode::from(WRONG_WORDS);
        }
        Err(_) => {
            let _ = eprintln!(rt; "edgebpf-explain: memory");
            return ExitCode::from(WRONG_WORDS);
        }
    };
    let asked = match options(alloc, &words) {
        Ok(asked) => asked,
        Err(error) => {
            let _ = eprint!(rt; "{error}");
            return ExitCode::from(WRONG_WORDS);
        }
    };
    match told(&rt, alloc, &asked) {
        Ok(told) => written(&rt, &told),
        Err(failure) => {
            let _ = eprintln!(rt; "edgebpf-explain: {failure}");
            ExitCode::from(WRONG_WORDS)
        }
    }
}

//! The words of the command line.
ghost use Rattle.std.specs.Prelude.{◌≡◌, ◌≤◌, ◌<◌, ◌⊎◌, ◌∷◌, ℕ, [], codes, IfOk, IfErr, IsErrAnd};
ghost use Rattle.clap.specs.Words.{app_of, kind_of, new_app};
ghost use Rattle.command_line.specs.Asked.{AsksFor, AsksForAllowed, arguments, with_version};
ghost use Rattle.workers.specs.declared.limits.TheConstants.{MOST_WORKERS};

use clap::error::ErrorKind;
use clap::{Arg, ArgAction, Command, Error};
use std::alloc::Global;
use workers::MOST_WORKERS;

/// The release that `--version` names.
const VERSION: &str = "0.1.0";

const ABOUT: &str = "\
Serves a script from standard input, and writes the answers to standard output.
A script makes a directed graph by batches of edges, pins its versions, and runs
small BPF programs once for each edge. Programs are verified before they run.";

const EXAMPLES: &str = "\
Three lines to try. The last one prints the sum of the numbers that a program
gives to the edges of a graph with two vertices and one edge:
  printf '%s\\n' 'graph 2' 'batch A' '+ 0 1' end 'pin now' > graph.script
  printf '%s\\n' 'program p 16' 'mov r0, 7' exit end 'run p now sum -' > run.script
  cat graph.script run.script | edgebpf --workers 2

The status is 0 once the whole script was executed, and 1 after a fault, which
is the last line of the output. Help goes to standard error, with status 2, so
that standard output has only the answers of a script.";

/// The command without its options, as help describes it.
fn described<'a>(alloc: Global) -> Command<'a>
    ensures { app_of result ≡ with_version (new_app (codes "edgebpf")) }
{
    Command::new(alloc, "edgebpf")
        .version(VERSION)
        .about(ABOUT)
        .after_help(EXAMPLES)
}

/// Returns how many workers the words ask for, the program's name first among them: 1 if they do not say. It is an error
/// if they ask for none or for more than 16, and if there is a word that means nothing. If they ask for help or for the
/// version, it is an error of that kind, whose text is the answer.
pub fn options(alloc: Global, words: &[String]) -> Result<u8, Error>
    ensures some { IfOk result (λ workers. 1 ≤ workers) }
    ensures most { IfOk result (λ workers. workers ≤ MOST_WORKERS) }
    ensures alone { arguments words.now ≡ [] → IfOk result (λ workers. workers ≡ 1) }
    ensures asked { (n : ℕ) → AsksFor n words.now → IfOk result (λ workers. workers ≡ n) }

    // What is allowed fails only for lack of memory, and a number that is not allowed always fails.
    ensures allowed { AsksForAllowed words.now → IfErr result (λ error. kind_of error ≡ ErrorKind.OutOfMemory) }
    ensures refused { (n : ℕ) → AsksFor n words.now → (n ≡ 0) ⊎ (MOST_WORKERS < n) → IsErrAnd result (λ error.
        (kind_of error ≡ ErrorKind.ValueValidation) ⊎ (kind_of error ≡ ErrorKind.OutOfMemory)) }

    // Help and the version are the whole answer: no script is served.
    ensures help { arguments words.now ≡ codes "--help" ∷ [] → IsErrAnd result (λ error.
        (kind_of error ≡ ErrorKind.DisplayHelp) ⊎ (kind_of error ≡ ErrorKind.OutOfMemory)) }
    ensures version { arguments words.now ≡ codes "--version" ∷ [] → IsErrAnd result (λ error.
        (kind_of error ≡ ErrorKind.DisplayVersion) ⊎ (kind_of error ≡ ErrorKind.OutOfMemory)) }
{
    let workers = Arg::new(alloc, "workers")
        .long("workers")
        .value_name("N")
        .action(ArgAction::Set)
        .help("How many threads work on a batch or a run, from 1 to 16; 1 if it is not said");
    let command = described(alloc).arg(workers.value_parser(clap::value_parser!(u8).range(
        1..=i64::from(MOST_WORKERS),
    )))?;
    let matches = command.try_get_matches_from(words)?;
    let asked = matches.get_one::<u8>("workers").unwrap_or(1);
    Ok(asked.clamp(1, MOST_WORKERS))
}

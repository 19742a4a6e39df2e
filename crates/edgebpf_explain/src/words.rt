//! The words of the command line.
use clap::{Arg, ArgAction, Command, Error};
use std::alloc::Global;

/// What the words ask for.
#[derive(Drop)]
pub struct Asked {
    /// How many bytes a record has.
    pub record_length: u16,
    /// The code in hexadecimal digits, unless it is assembler text on standard input.
    pub code: Option<String>,
    /// The table in hexadecimal digits, if the program has one.
    pub table: Option<String>,
}

/// A copy of digits, if there are any.
fn copy_of(alloc: Global, digits: Option<&str>) -> Result<Option<String>, Error> {
    match digits {
        None => Ok(None),
        Some(digits) => Ok(Some(digits.to_string(alloc)?)),
    }
}

/// What the words ask for, the program's name first among them.
pub(crate) fn options(alloc: Global, words: &[String]) -> Result<Asked, Error> {
    let length = Arg::new(alloc, "length")
        .value_name("LENGTH")
        .required(true)
        .action(ArgAction::Set)
        .help("How many bytes the record has that each run is lent, from 16 to 256");
    let code = Arg::new(alloc, "code")
        .value_name("HEX")
        .action(ArgAction::Set)
        .help(
            "The code in hexadecimal digits; without it assembler text is read from standard input",
        );
    let table = Arg::new(alloc, "table")
        .long("table")
        .value_name("HEX")
        .action(ArgAction::Set)
        .help("The table that the program reads, 1 to 4096 bytes in hexadecimal digits");
    let command = Command::new(alloc, "edgebpf-explain")
        .about("Tells what is known at each place of a BPF program, and why one is refused.")
        .arg(length.value_parser(clap::value_parser!(u16).range(16..=256)))?
        .arg(code)?
        .arg(table)?;
    let matches = command.try_get_matches_from(words)?;
    Ok(Asked {
        record_length: matches.get_one::<u16>("length").unwrap_or(16),
        code: copy_of(alloc, matches.get_str("code"))?,
        table: copy_of(alloc, matches.get_str("table"))?,
    })
}

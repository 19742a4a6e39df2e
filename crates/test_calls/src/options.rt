//! Command lines, and what they ask for.
use clap::error::ErrorKind;
use command_line::options;
use std::alloc::{AllocError, Global};
use std::test::Fail;

// These words, after the program's name.
fn words_of(alloc: Global, words: &str) -> Result<Vec<String>, AllocError> {
    let mut all = Vec::new(alloc);
    all.push("edgebpf".to_string(alloc)?)?;
    for word in words.split_ascii_whitespace() {
        all.push(word.to_string(alloc)?)?;
    }
    Ok(all)
}

// How many workers words ask for, or which error they are.
fn asked(alloc: Global, words: &str) -> Result<Result<u8, ErrorKind>, AllocError> {
    let words = words_of(alloc, words)?;
    match options(alloc, &words) {
        Ok(workers) => Ok(Ok(workers)),
        Err(error) => Ok(Err(error.kind())),
    }
}

#[test]
fn one_to_sixteen_workers_may_be_asked_for(rt: HostRuntime) -> Result<(), Fail> {
    for (words, wanted) in [
        ("", Ok(1)),
        ("--workers 1", Ok(1)),
        ("--workers 4", Ok(4)),
        ("--workers=16", Ok(16)),
        ("--workers 0", Err(ErrorKind::ValueValidation)),
        ("--workers 17", Err(ErrorKind::ValueValidation)),
        ("--workers two", Err(ErrorKind::ValueValidation)),
        ("--workers", Err(ErrorKind::InvalidValue)),
        ("--threads 2", Err(ErrorKind::UnknownArgument)),
        ("first.script", Err(ErrorKind::UnknownArgument)),
        ("--workers 4 first.script", Err(ErrorKind::UnknownArgument)),
        ("first.script --workers 4", Err(ErrorKind::UnknownArgument)),
        ("--workers 4 --workers 8", Err(ErrorKind::ArgumentConflict)),
        ("--help", Err(ErrorKind::DisplayHelp)),
        ("-h", Err(ErrorKind::DisplayHelp)),
        ("-V", Err(ErrorKind::DisplayVersion)),
    ] {
        assert_eq!(rt; asked(rt.alloc(), words)?, wanted, "{words}");
    }
    Ok(())
}

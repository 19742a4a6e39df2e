//! The lines of an assembler text that hold a statement.
ghost use Rattle.std.specs.Prelude.{◌≡◌, ◌++◌, ◌∷◌, [], filter, map, IfOk, OnOk};
ghost use Rattle.bpf_asm.specs.Lexing.{parts};
ghost use Rattle.explanation.specs.SourceLines.{as_numbered, holds_statement, numbered_line, said_on, statement_lines};

use std::alloc::{AllocError, Global};

/// A line of an assembler text that holds a statement.
#[derive(Clone, Copy, Debug, PartialEq, Eq)]
pub struct SourceLine<'a> {
    /// Which line it is, from 1.
    pub number: u64,
    /// What stands there, without white space at both ends and without a comment.
    pub text: &'a str,
}

/// What a line says: all before a comment, without white space at both ends.
fn said_on(line: &str) -> &str
    ensures { result.now ≡ said_on line.now }
{
    match line.split_once(';') {
        Some((said, _)) => said.trim(),
        None => line.trim(),
    }
}

/// Whether a line says something that is no label.
fn holds_statement(line: SourceLine<'_>) -> bool
    ensures { result ≡ holds_statement (as_numbered line.entry) }
{
    !line.text.is_empty() && !line.text.ends_with(':')
}

/// The lines of a text.
fn lines_of(alloc: Global, text: &str) -> Result<Vec<&str>, AllocError>
    ensures { IfOk result (λ lines. map (λ line. line.now) lines.items ≡ parts 10 text.now) }
{
    text.split('\n').collect(alloc)
}

/// Puts a line after others if it holds a statement.
fn put_statement<'a>(
    lines: &mut Vec<SourceLine<'a>>,
    number: u64,
    line: &'a str,
) -> Result<(), AllocError>
    ensures { OnOk result (map as_numbered lines.new.items
        ≡ map as_numbered lines.old.items ++ filter holds_statement (numbered_line number line.now ∷ [])) }
{
    let line = SourceLine {
        number,
        text: said_on(line),
    };
    if holds_statement(line) {
        lines.push(line)?;
    }
    Ok(())
}

/// The lines that say something other than a label, in order, with their numbers. Comments and white space say nothing.
pub fn source_lines(alloc: Global, text: &str) -> Result<Vec<SourceLine<'_>>, AllocError>
    ensures { IfOk result (λ lines. map as_numbered lines.items ≡ statement_lines text.now) }
{
    let lines = lines_of(alloc, text)?;
    let mut statements = Vec::new(alloc);
    for (ordinal, line) in lines.iter().enumerate() {
        put_statement(&mut statements, ordinal as u64 + 1, line)?;
    }
    Ok(statements)
}

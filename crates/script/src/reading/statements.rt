//! Lines outside blocks.

ghost use Rattle.std.specs.Prelude.{◌≡◌, List, Option, Some, None, option_map, IfOk, MatchOption};
ghost use Rattle.script_model.specs.Lexing.{words};
ghost use Rattle.script_model.specs.Parsing.{feed_of as feed_of_word, graph_statement, batch_statement, code_statement, image_statement, program_statement, pin_statement, run_statement, home_statement, rebase_statement, list_statement, reduction_of as reduction_word, statement as statement_of};
ghost use Rattle.script_model.specs.Execution.{is_comment as is_comment_word};
ghost use Rattle.script.specs.Said.{said_statement, cut_statement, saying_of, said_line, cut_saying};
ghost use Rattle.script.specs.Reading.{load_of, image_of, run_of, list_of};

use crate::reading::hex::hex;
use crate::reading::lending::{column, pull, values, write};
use crate::reading::line::{Line, Statement};
use crate::reading::names::is_name;
use crate::reading::numbers::{all_numbers, next_number};
use crate::reading::words::{has_no_word, is_word, next_word};
use map_model::Reduction;
use session_model::Way;
use std::alloc::{AllocError, Global};

/// The words of a `code` command, its code in hexadecimal digits.
#[derive(Drop)]
struct CodeWords<'a> {
    name: &'a [u8],
    record_length: u64,
    digits: &'a [u8],
}

/// The words of an `image` command, its bytes in hexadecimal digits.
#[derive(Drop)]
struct ImageWords<'a> {
    name: &'a [u8],
    digits: &'a [u8],
}

/// The words of a `run` command, its argument in hexadecimal digits and its frontier as a line.
#[derive(Drop)]
struct RunWords<'a> {
    program: &'a [u8],
    pin: &'a [u8],
    reduction: Reduction,
    digits: &'a [u8],
    frontier: &'a [u8],
}

/// The words of a `list` command, its argument in hexadecimal digits.
#[derive(Drop)]
struct ListWords<'a> {
    program: &'a [u8],
    pin: &'a [u8],
    digits: &'a [u8],
}

fn graph(operands: &[u8]) -> Option<Statement<'_>>
    ensures { option_map said_statement result ≡ option_map cut_statement (graph_statement (words operands.now)) }
{
    let (vertices, rest) = next_number(operands)?;
    if !has_no_word(rest) {
        return None;
    }
    Some(Statement::Graph { vertices })
}

/// The number of the feed that a word names.
fn feed_of(word: &[u8]) -> Option<u8>
    ensures { result ≡ feed_of_word word.now }
{
    if is_word(word, "A") {
        return Some(0);
    }
    if is_word(word, "B") {
        return Some(1);
    }
    if is_word(word, "C") {
        return Some(2);
    }
    if is_word(word, "D") {
        return Some(3);
    }
    None
}

fn batch(operands: &[u8]) -> Option<Statement<'_>>
    ensures { option_map said_statement result ≡ option_map cut_statement (batch_statement (words operands.now)) }
{
    let (feed, rest) = next_word(operands)?;
    if !has_no_word(rest) {
        return None;
    }
    let feed = feed_of(feed)?;
    Some(Statement::Batch { feed })
}

fn pin(operands: &[u8]) -> Option<Statement<'_>>
    ensures { option_map said_statement result ≡ option_map cut_statement (pin_statement (words operands.now)) }
{
    let (name, rest) = next_word(operands)?;
    if !is_name(name) || !has_no_word(rest) {
        return None;
    }
    Some(Statement::Pin { name })
}

fn program(operands: &[u8]) -> Option<Statement<'_>>
    ensures { option_map said_statement result ≡ option_map cut_statement (program_statement (words operands.now)) }
{
    let (name, rest) = next_word(operands)?;
    let (record_length, rest) = next_number(rest)?;
    if !is_name(name) || !has_no_word(rest) {
        return None;
    }
    Some(Statement::Program {
        name,
        record_length,
    })
}

fn code_words(operands: &[u8]) -> Option<CodeWords<'_>>
    ensures { MatchOption result (code_statement (words operands.now) ≡ None)
        (λ found. option_map cut_statement (code_statement (words operands.now))
        ≡ load_of found.name.now found.record_length found.digits.now) }
{
    let (name, rest) = next_word(operands)?;
    let (record_length, rest) = next_number(rest)?;
    let (digits, rest) = next_word(rest)?;
    if !is_name(name) || !has_no_word(rest) {
        return None;
    }
    Some(CodeWords {
        name,
        record_length,
        digits,
    })
}

fn code(alloc: Global, operands: &[u8]) -> Result<Option<Statement<'_>>, AllocError>
    ensures { IfOk result (λ found. option_map said_statement found
        ≡ option_map cut_statement (code_statement (words operands.now))) }
{
    let Some(found) = code_words(operands) else {
        return Ok(None);
    };
    let Some(code) = hex(alloc, found.digits)? else {
        return Ok(None);
    };
    Ok(Some(Statement::Code {
        name: found.name,
        record_length: found.record_length,
        code,
    }))
}

fn image_words(operands: &[u8]) -> Option<ImageWords<'_>>
    ensures { MatchOption result (image_statement (words operands.now) ≡ None)
        (λ found. image_statement (words operands.now) ≡ image_of found.name.now found.digits.now) }
{
    let (name, rest) = next_word(operands)?;
    let (digits, rest) = next_word(rest)?;
    if !is_name(name) || !has_no_word(rest) {
        return None;
    }
    Some(ImageWords { name, digits })
}

fn image(alloc: Global, operands: &[u8]) -> Result<Option<Statement<'_>>, AllocError>
    ensures { IfOk result (λ found. option_map said_statement found
        ≡ option_map cut_statement (image_statement (words operands.now))) }
{
    let Some(found) = image_words(operands) else {
        return Ok(None);
    };
    let Some(bytes) = hex(alloc, found.digits)? else {
        return Ok(None);
    };
    Ok(Some(Statement::Image {
        name: found.name,
        bytes,
    }))
}

/// How a run's numbers are put together.
pub(crate) fn reduction(word: &[u8]) -> Option<Reduction>
    ensures { result ≡ reduction_word word.now }
{
    if is_word(word, "min") {
        return Some(Reduction::Min);
    }
    if is_word(word, "max") {
        return Some(Reduction::Max);
    }
    if is_word(word, "sum") {
        return Some(Reduction::Sum);
    }
    None
}

fn run_words(operands: &[u8]) -> Option<RunWords<'_>>
    ensures { MatchOption result (run_statement (words operands.now) ≡ None)
        (λ found. run_statement (words operands.now)
        ≡ run_of found.program.now found.pin.now found.reduction found.digits.now (words found.frontier.now)) }
{
    let (program, rest) = next_word(operands)?;
    let (pin, rest) = next_word(rest)?;
    let (reducer, rest) = next_word(rest)?;
    let (digits, frontier) = next_word(rest)?;
    if !is_name(program) || !is_name(pin) {
        return None;
    }
    Some(RunWords {
        program,
        pin,
        reduction: reduction(reducer)?,
        digits,
        frontier,
    })
}

fn run(alloc: Global, operands: &[u8]) -> Result<Option<Statement<'_>>, AllocError>
    ensures { IfOk result (λ found. option_map said_statement found
        ≡ option_map cut_statement (run_statement (words operands.now))) }
{
    let Some(found) = run_words(operands) else {
        return Ok(None);
    };
    let Some(argument) = hex(alloc, found.digits)? else {
        return Ok(None);
    };
    let Some(frontier) = all_numbers(alloc, found.frontier)? else {
        return Ok(None);
    };
    Ok(Some(Statement::Run {
        program: found.program,
        pin: found.pin,
        reduction: found.reduction,
        argument,
        frontier,
    }))
}

fn home(operands: &[u8]) -> Option<Statement<'_>>
    ensures { option_map said_statement result ≡ option_map cut_statement (home_statement (words operands.now)) }
{
    let (vertex, rest) = next_number(operands)?;
    if !has_no_word(rest) {
        return None;
    }
    Some(Statement::Home { vertex })
}

fn rebase(operands: &[u8]) -> Option<Statement<'_>>
    ensures { option_map said_statement result ≡ option_map cut_statement (rebase_statement (words operands.now)) }
{
    if !has_no_word(operands) {
        return None;
    }
    Some(Statement::Rebase)
}

fn list_words(operands: &[u8]) -> Option<ListWords<'_>>
    ensures { MatchOption result (list_statement (words operands.now) ≡ None)
        (λ found. list_statement (words operands.now)
        ≡ list_of found.program.now found.pin.now found.digits.now) }
{
    let (program, rest) = next_word(operands)?;
    let (pin, rest) = next_word(rest)?;
    let (digits, rest) = next_word(rest)?;
    if !is_name(program) || !is_name(pin) || !has_no_word(rest) {
        return None;
    }
    Some(ListWords {
        program,
        pin,
        digits,
    })
}

fn list(alloc: Global, operands: &[u8]) -> Result<Option<Statement<'_>>, AllocError>
    ensures { IfOk result (λ found. option_map said_statement found
        ≡ option_map cut_statement (list_statement (words operands.now))) }
{
    let Some(found) = list_words(operands) else {
        return Ok(None);
    };
    let Some(argument) = hex(alloc, found.digits)? else {
        return Ok(None);
    };
    Ok(Some(Statement::List {
        program: found.program,
        pin: found.pin,
        argument,
    }))
}

/// The statement that a line's first word names, with the words after it.
fn statement<'a>(
    alloc: Global,
    word: &[u8],
    operands: &'a [u8],
) -> Result<Option<Statement<'a>>, AllocError>
    ensures { IfOk result (λ found. option_map said_statement found
        ≡ option_map cut_statement (statement_of word.now (words operands.now))) }
{
    if is_word(word, "graph") {
        return Ok(graph(operands));
    }
    if is_word(word, "batch") {
        return Ok(batch(operands));
    }
    if is_word(word, "code") {
        return code(alloc, operands);
    }
    if is_word(word, "pin") {
        return Ok(pin(operands));
    }
    if is_word(word, "run") {
        return run(alloc, operands);
    }
    if is_word(word, "program") {
        return Ok(program(operands));
    }
    if is_word(word, "home") {
        return Ok(home(operands));
    }
    if is_word(word, "list") {
        return list(alloc, operands);
    }
    if is_word(word, "image") {
        return image(alloc, operands);
    }
    if is_word(word, "rebase") {
        return Ok(rebase(operands));
    }
    if is_word(word, "column") {
        return column(alloc, operands);
    }
    if is_word(word, "values") {
        return values(alloc, operands);
    }
    if is_word(word, "pull") {
        return pull(alloc, operands);
    }
    if is_word(word, "push") {
        return write(alloc, Way::Push, operands);
    }
    if is_word(word, "each") {
        return write(alloc, Way::Each, operands);
    }
    Ok(None)
}

/// Whether a line that begins with this word is a comment.
fn is_comment(word: &[u8]) -> bool
    ensures { result ≡ is_comment_word word.now }
{
    matches!(word, [b'#', ..])
}

/// What a line outside blocks says.
pub(crate) fn statement_line<'a>(alloc: Global, line: &'a [u8]) -> Result<Line<'a>, AllocError>
    ensures { IfOk result (λ l. said_line l ≡ cut_saying (saying_of (words line.now))) }
{
    let Some((word, operands)) = next_word(line) else {
        return Ok(Line::Skipped);
    };
    if is_comment(word) {
        return Ok(Line::Skipped);
    }
    match statement(alloc, word, operands)? {
        Some(statement) => Ok(Line::Statement(statement)),
        None => Ok(Line::Unknown),
    }
}

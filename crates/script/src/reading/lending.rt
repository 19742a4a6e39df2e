//! Lines about columns.

ghost use Rattle.std.specs.Prelude.{◌≡◌, List, ℕ, Option, None, option_map, IfOk, MatchOption};
ghost use Rattle.script_model.specs.Lexing.{words};
ghost use Rattle.session_model.specs.Commands.{Asked};
ghost use Rattle.script_model.specs.Parsing.{Statement as SaidStatement, option_then, asked_of, column_statement, values_statement, lending_statement, pull_statement, write_statement};
ghost use Rattle.script.specs.Said.{said_asked, cut_asked, said_statement, cut_statement};
ghost use Rattle.script.specs.Reading.{column_of};

use crate::reading::hex::{hex, is_dash};
use crate::reading::line::{Asking, Statement};
use crate::reading::names::{column_names, is_column_name, is_name};
use crate::reading::numbers::{all_numbers, next_number};
use crate::reading::statements::reduction;
use crate::reading::words::next_word;
use map_model::Reduction;
use session_model::Way;
use std::alloc::{AllocError, Global};

/// The words of a `column` command, its numbers as a line.
#[derive(Drop)]
struct ColumnWords<'a> {
    name: &'a [u8],
    first: u64,
    numbers: &'a [u8],
}

/// The words of a command that lends columns: its argument in hexadecimal digits, the names of its columns as one word, and its
/// frontier as a line.
#[derive(Drop)]
struct LendingWords<'a> {
    program: &'a [u8],
    pin: &'a [u8],
    reduction: Reduction,
    digits: &'a [u8],
    names: &'a [u8],
    into: &'a [u8],
    frontier: &'a [u8],
}

fn column_words(operands: &[u8]) -> Option<ColumnWords<'_>>
    ensures { MatchOption result (column_statement (words operands.now) ≡ None)
        (λ found. option_map cut_statement (column_statement (words operands.now))
        ≡ column_of found.name.now found.first (words found.numbers.now)) }
{
    let (name, rest) = next_word(operands)?;
    let Some((first, numbers)) = next_number(rest) else {
        return None;
    };
    if !is_column_name(name) {
        return None;
    }
    Some(ColumnWords {
        name,
        first,
        numbers,
    })
}

pub(crate) fn column(alloc: Global, operands: &[u8]) -> Result<Option<Statement<'_>>, AllocError>
    ensures { IfOk result (λ found. option_map said_statement found
        ≡ option_map cut_statement (column_statement (words operands.now))) }
{
    let Some(found) = column_words(operands) else {
        return Ok(None);
    };
    let Some(numbers) = all_numbers(alloc, found.numbers)? else {
        return Ok(None);
    };
    Ok(Some(Statement::Column {
        name: found.name,
        first: found.first,
        numbers,
    }))
}

pub(crate) fn values(alloc: Global, operands: &[u8]) -> Result<Option<Statement<'_>>, AllocError>
    ensures { IfOk result (λ found. option_map said_statement found
        ≡ option_map cut_statement (values_statement (words operands.now))) }
{
    let Some((name, frontier)) = next_word(operands) else {
        return Ok(None);
    };
    if !is_column_name(name) {
        return Ok(None);
    }
    let Some(frontier) = all_numbers(alloc, frontier)? else {
        return Ok(None);
    };
    Ok(Some(Statement::Values { name, frontier }))
}

fn lending_words(operands: &[u8]) -> Option<LendingWords<'_>>
    ensures { (to : List ℕ → Asked → Option SaidStatement)
        → MatchOption result (lending_statement to (words operands.now) ≡ None)
        (λ found. lending_statement to (words operands.now)
        ≡ option_then (asked_of found.program.now found.pin.now found.reduction found.digits.now found.names.now
        (words found.frontier.now))
        (to found.into.now)) }
{
    let (program, rest) = next_word(operands)?;
    let (pin, rest) = next_word(rest)?;
    let (reducer, rest) = next_word(rest)?;
    let (digits, rest) = next_word(rest)?;
    let (names, rest) = next_word(rest)?;
    let (into, frontier) = next_word(rest)?;
    if !is_name(program) || !is_name(pin) {
        return None;
    }
    Some(LendingWords {
        program,
        pin,
        reduction: reduction(reducer)?,
        digits,
        names,
        into,
        frontier,
    })
}

/// What a command that lends columns asks for.
fn asking<'a>(alloc: Global, found: &LendingWords<'a>) -> Result<Option<Asking<'a>>, AllocError>
    ensures { IfOk result (λ asking. let w = found.now in option_map said_asked asking
        ≡ option_map cut_asked (asked_of w.program.now w.pin.now w.reduction w.digits.now w.names.now
        (words w.frontier.now))) }
{
    let Some(argument) = hex(alloc, found.digits)? else {
        return Ok(None);
    };
    let Some(columns) = column_names(alloc, found.names)? else {
        return Ok(None);
    };
    let Some(frontier) = all_numbers(alloc, found.frontier)? else {
        return Ok(None);
    };
    Ok(Some(Asking {
        program: found.program,
        pin: found.pin,
        reduction: found.reduction,
        argument,
        columns,
        frontier,
    }))
}

pub(crate) fn pull(alloc: Global, operands: &[u8]) -> Result<Option<Statement<'_>>, AllocError>
    ensures { IfOk result (λ found. option_map said_statement found
        ≡ option_map cut_statement (pull_statement (words operands.now))) }
{
    let Some(found) = lending_words(operands) else {
        return Ok(None);
    };
    let Some(asking) = asking(alloc, &found)? else {
        return Ok(None);
    };
    if is_dash(found.into) {
        return Ok(Some(Statement::PullRows { asking }));
    }
    if !is_column_name(found.into) {
        return Ok(None);
    }
    Ok(Some(Statement::WriteColumn {
        way: Way::Pull,
        asking,
        into: found.into,
    }))
}

/// A command that writes a column in a way.
pub(crate) fn write(
    alloc: Global,
    way: Way,
    operands: &[u8],
) -> Result<Option<Statement<'_>>, AllocError>
    ensures { IfOk result (λ found. option_map said_statement found
        ≡ option_map cut_statement (write_statement way (words operands.now))) }
{
    let Some(found) = lending_words(operands) else {
        return Ok(None);
    };
    let Some(asking) = asking(alloc, &found)? else {
        return Ok(None);
    };
    if !is_column_name(found.into) {
        return Ok(None);
    }
    Ok(Some(Statement::WriteColumn {
        way,
        asking,
        into: found.into,
    }))
}

//! The report on a block.
use crate::answers::answer;
use crate::block::{Block, Row};
use anyhow::Result;
use std::alloc::{AllocError, Global};

/// A line of a table as it is meant: a stroke stands for a line end.
fn with_line_ends(alloc: Global, line: &str) -> Result<String, AllocError> {
    let mut text = String::new(alloc);
    let mut is_first = true;
    for part in line.split('/') {
        if !is_first {
            text.push_str("\n")?;
        }
        is_first = false;
        text.push_str(part)?;
    }
    Ok(text)
}

/// Says in `told` what came of a row, unless it is what the row wants.
fn tell_if_wrong(alloc: Global, told: &mut String, block: &Block<'_>, row: &Row<'_>) -> Result<()> {
    let found = answer(alloc, block, row.input)?;
    if row.wants(&found) {
        return Ok(());
    }
    let (input, wanted) = (row.input, row.wanted);
    write!(
        told,
        "\nof {input}\nwas wanted\n{wanted}\nand came\n{found}"
    )?;
    Ok(())
}

/// Says in `told` what came of a line, unless it is what the line wants.
fn tell_of_line(alloc: Global, told: &mut String, block: &Block<'_>, line: &str) -> Result<()> {
    let line = with_line_ends(alloc, line)?;
    tell_if_wrong(alloc, told, block, &Row::of_line(&line))
}

/// How many rows a table has, and in `told` what came of those that are not as they want. Empty lines, and those that begin with
/// `% `, are for the reader.
fn tell_of_table(alloc: Global, told: &mut String, block: &Block<'_>) -> Result<u64> {
    let mut count = 0u64;
    for line in block.lines.lines() {
        if !line.is_empty() && !line.starts_with("% ") {
            tell_of_line(alloc, told, block, line)?;
            count = count.saturating_add(1);
        }
    }
    Ok(count)
}

/// The report on a block: its name, with how many rows it has, and that all came out as they want, or what came of the others.
pub(crate) fn report_on(alloc: Global, block: &Block<'_>) -> Result<String> {
    let mut told = String::new(alloc);
    let count = match Row::of_block(block.lines) {
        Some(row) => {
            tell_if_wrong(alloc, &mut told, block, &row)?;
            1
        }
        None => tell_of_table(alloc, &mut told, block)?,
    };
    let name = block.name;
    if told.is_empty() {
        return Ok(format!(in alloc; "{name}: {count} as wanted")?);
    }
    Ok(format!(in alloc; "{name}: not as wanted{told}")?)
}

//! Lines of a batch.

ghost use Rattle.std.specs.Prelude.{◌≡◌, option_map};
ghost use Rattle.script_model.specs.Lexing.{words};
ghost use Rattle.script_model.specs.Parsing.{insert_line, remove_line, batch_line as batch_line_of};
ghost use Rattle.script.specs.Said.{said_batch_line, cut_batch_line};
ghost use Rattle.script.specs.Reading.{pair_behind, cut_pair};

use crate::reading::block_end::is_end;
use crate::reading::line::BatchLine;
use crate::reading::numbers::next_number;
use crate::reading::words::{has_no_word, is_word, next_word};

/// The two numbers that stand after a sign.
fn pair(line: &[u8]) -> Option<(u64, u64)>
    ensures { result ≡ option_map cut_pair (pair_behind (words line.now)) }
{
    let (source, rest) = next_number(line)?;
    let (target, rest) = next_number(rest)?;
    if !has_no_word(rest) {
        return None;
    }
    Some((source, target))
}

/// The insertion that stands after a `+`.
fn insertion(line: &[u8]) -> Option<BatchLine>
    ensures { option_map said_batch_line result ≡ option_map cut_batch_line
        (option_map insert_line (pair_behind (words line.now))) }
{
    let (source, target) = pair(line)?;
    Some(BatchLine::Insert { source, target })
}

/// The removal that stands after a `-`.
fn removal(line: &[u8]) -> Option<BatchLine>
    ensures { option_map said_batch_line result ≡ option_map cut_batch_line
        (option_map remove_line (pair_behind (words line.now))) }
{
    let (source, target) = pair(line)?;
    Some(BatchLine::Remove { source, target })
}

/// What a line inside a batch says.
pub(crate) fn batch_line(line: &[u8]) -> Option<BatchLine>
    ensures { option_map said_batch_line result ≡ option_map cut_batch_line (batch_line_of (words line.now)) }
{
    let (sign, rest) = next_word(line)?;
    if is_word(sign, "+") {
        return insertion(rest);
    }
    if is_word(sign, "-") {
        return removal(rest);
    }
    if is_end(line) {
        return Some(BatchLine::End);
    }
    None
}

//! The line that ends a block.
ghost use Rattle.std.specs.Prelude.{◌≡◌};
ghost use Rattle.script_model.specs.Lexing.{words};
ghost use Rattle.script_model.specs.Parsing.{is_end as is_end_of};

use crate::reading::words::{has_no_word, is_word, next_word};

/// Whether a line ends a block: its only word is `end`.
pub(crate) fn is_end(line: &[u8]) -> bool
    ensures { result ≡ is_end_of (words line.now) }
{
    let Some((word, rest)) = next_word(line) else {
        return false;
    };
    is_word(word, "end") && has_no_word(rest)
}

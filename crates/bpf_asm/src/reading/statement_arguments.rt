//! The arguments after a word.
ghost use Rattle.std.specs.Prelude.{◌≡◌, ◌<◌, length, Some, None, option_map, is_some, IfSome, MatchOption};
ghost use Rattle.bpf_asm.specs.Lexing.{all_arguments, arguments as arguments_of, parts, with_argument};
ghost use Rattle.bpf_asm.specs.Said.{parts_behind, said_argument, said_arguments};

use crate::reading::argument::{Argument, argument_in};
use crate::reading::lexing::without_blanks;
use crate::reading::part::first_part;

/// The arguments after a word. No instruction has more than three.
#[derive(Clone, Copy)]
pub(crate) enum Arguments<'a> {
    Zero,
    One(Argument<'a>),
    Two(Argument<'a>, Argument<'a>),
    Three(Argument<'a>, Argument<'a>, Argument<'a>),
    More,
}

/// The argument before the first comma, and what stands after that comma if there is one.
fn next_argument(text: &[u8]) -> Option<(Argument<'_>, Option<&[u8]>)>
    ensures first { MatchOption result (all_arguments (parts 44 text.now) ≡ None)
        (λ found. all_arguments (parts 44 text.now)
        ≡ with_argument (Some (said_argument found.0)) (all_arguments (parts_behind 44 found.1))) }
    ensures shorter { IfSome result (λ found. IfSome found.1 (λ rest. length rest.now < length text.now)) }
{
    let (part, rest) = first_part(text, b',');
    let argument = argument_in(without_blanks(part))?;
    Some((argument, rest))
}

/// Whether all parts between commas are arguments.
fn are_arguments(text: &[u8]) -> bool
    ensures { result ≡ is_some (all_arguments (parts 44 text.now)) }
{
    let mut left = text;
    loop {
        let Some((_, rest)) = next_argument(left) else {
            return false;
        };
        let Some(rest) = rest else {
            return true;
        };
        left = rest;
    }
}

/// The arguments after a word.
pub(crate) fn arguments_in(text: &[u8]) -> Option<Arguments<'_>>
    ensures { option_map said_arguments result ≡ arguments_of text.now }
{
    if text.is_empty() {
        return Some(Arguments::Zero);
    }
    let (first, rest) = next_argument(text)?;
    let Some(rest) = rest else {
        return Some(Arguments::One(first));
    };
    let (second, rest) = next_argument(rest)?;
    let Some(rest) = rest else {
        return Some(Arguments::Two(first, second));
    };
    let (third, rest) = next_argument(rest)?;
    let Some(rest) = rest else {
        return Some(Arguments::Three(first, second, third));
    };
    if !are_arguments(rest) {
        return None;
    }
    Some(Arguments::More)
}

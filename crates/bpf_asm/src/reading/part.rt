//! The part of a text before a separator.
ghost use Rattle.std.specs.Prelude.{◌≡◌, ◌∷◌, ◌<◌, length, IfSome};
ghost use Rattle.bpf_asm.specs.Lexing.{parts};
ghost use Rattle.bpf_asm.specs.Said.{parts_behind};

use crate::reading::lexing::position_of;

/// The part of a text before the first separator, and what stands after that separator if there
/// is one.
pub(crate) fn first_part(text: &[u8], separator: u8) -> (&[u8], Option<&[u8]>)
    ensures first { parts separator text.now ≡ result.0.now ∷ parts_behind separator result.1 }
    ensures shorter { IfSome result.1 (λ rest. length rest.now < length text.now) }
{
    let at = position_of(text, separator);
    if at >= text.len() {
        return (text, None);
    }
    (&text[..at], Some(&text[at + 1..]))
}

//! What may stand after a word.
ghost use Rattle.std.specs.Prelude.{◌≡◌, Option, Some, None, option_map};
ghost use Rattle.std.specs.List.{position_or_len};
ghost use Rattle.bpf_asm.specs.Lexing.{
  address_argument,
  all_arguments,
  argument as argument_of,
  arguments as arguments_of,
  is_sign as is_sign_byte,
  memory as memory_of,
  name as name_of,
  parts,
  place as place_of,
  register_named as register_named_of,
  without_blanks as without_blanks_of,
};
ghost use Rattle.bpf_asm.specs.Said.{said_argument, said_place};

use crate::reading::lexing::{is_name, position_of, register_named, without_blanks};
use crate::reading::numeral::{Numeral, displacement, number};
use bpf_isa::Register;

/// What stands after a word, by its form.
#[derive(Clone, Copy)]
pub(crate) enum Argument<'a> {
    Register(Register),
    Number(Numeral<'a>),
    Memory(Register, Numeral<'a>),
    /// The name of a label.
    Name(&'a [u8]),
}

fn is_sign(byte: u8) -> bool
    ensures { result ≡ is_sign_byte byte }
{
    byte == b'+' || byte == b'-'
}

/// The place of the first sign, or the text's length where there is none.
fn position_of_sign(text: &[u8]) -> usize
    ensures { result ≡ position_or_len is_sign_byte text.now }
{
    for (at, byte) in text.iter().enumerate() {
        if is_sign(*byte) {
            return at;
        }
    }
    text.len()
}

/// A register, and a displacement after it.
fn place(text: &[u8]) -> Option<(Register, Numeral<'_>)>
    ensures { option_map said_place result ≡ place_of text.now }
{
    let (base, offset) = text.split_at(position_of_sign(text));
    let base = register_named(base)?;
    let offset = displacement(offset)?;
    Some((base, offset))
}

/// A place in brackets.
fn memory(text: &[u8]) -> Option<(Register, Numeral<'_>)>
    ensures { option_map said_place result ≡ memory_of text.now }
{
    let length = text.len();
    if length < 2 || text[0] != b'[' || text[length - 1] != b']' {
        return None;
    }
    place(&text[1..length - 1])
}

/// The form that a text has.
pub(crate) fn argument_in(text: &[u8]) -> Option<Argument<'_>>
    ensures { option_map said_argument result ≡ argument_of text.now }
{
    if let Some(register) = register_named(text) {
        return Some(Argument::Register(register));
    }
    if let Some(number) = number(text) {
        return Some(Argument::Number(number));
    }
    if let Some((base, offset)) = memory(text) {
        return Some(Argument::Memory(base, offset));
    }
    if !is_name(text) {
        return None;
    }
    Some(Argument::Name(text))
}

//! From a word's text to the word.
ghost use Rattle.std.specs.Prelude.{◌≡◌};
ghost use Rattle.bpf_asm.specs.Lexing.{same_bytes};
ghost use Rattle.bpf_asm.specs.Words.{accesses, changes, comparisons, flows, is_short, lookup, operations, stem, width_of, word as word_of_text};

use crate::reading::word::Word;
use bpf_isa::{ByteOrder, Comparison, Extension, Operation, SignedSize, Size, SwapBits, Width};

/// Whether a text is this one.
fn is_text(text: &[u8], expected: &str) -> bool
    ensures { result ≡ same_bytes text.now expected.now }
{
    text == expected.as_bytes()
}

/// The operation of a word of 64 bits.
fn operation(text: &[u8]) -> Option<Operation>
    ensures { result ≡ lookup operations text.now }
{
    if is_text(text, "mov") {
        return Some(Operation::Move);
    }
    if is_text(text, "add") {
        return Some(Operation::Add);
    }
    if is_text(text, "sub") {
        return Some(Operation::Subtract);
    }
    if is_text(text, "mul") {
        return Some(Operation::Multiply);
    }
    if is_text(text, "div") {
        return Some(Operation::Divide);
    }
    if is_text(text, "sdiv") {
        return Some(Operation::DivideSigned);
    }
    if is_text(text, "or") {
        return Some(Operation::Or);
    }
    if is_text(text, "and") {
        return Some(Operation::And);
    }
    if is_text(text, "lsh") {
        return Some(Operation::ShiftLeft);
    }
    if is_text(text, "rsh") {
        return Some(Operation::ShiftRight);
    }
    if is_text(text, "mod") {
        return Some(Operation::Modulo);
    }
    if is_text(text, "smod") {
        return Some(Operation::ModuloSigned);
    }
    if is_text(text, "xor") {
        return Some(Operation::Xor);
    }
    if is_text(text, "arsh") {
        return Some(Operation::ShiftRightSigned);
    }
    None
}

/// The comparison of a word of 64 bits.
fn comparison(text: &[u8]) -> Option<Comparison>
    ensures { result ≡ lookup comparisons text.now }
{
    if is_text(text, "jeq") {
        return Some(Comparison::Equal);
    }
    if is_text(text, "jgt") {
        return Some(Comparison::Greater);
    }
    if is_text(text, "jge") {
        return Some(Comparison::GreaterOrEqual);
    }
    if is_text(text, "jset") {
        return Some(Comparison::SharesBit);
    }
    if is_text(text, "jne") {
        return Some(Comparison::NotEqual);
    }
    if is_text(text, "jsgt") {
        return Some(Comparison::GreaterSigned);
    }
    if is_text(text, "jsge") {
        return Some(Comparison::GreaterOrEqualSigned);
    }
    if is_text(text, "jlt") {
        return Some(Comparison::Less);
    }
    if is_text(text, "jle") {
        return Some(Comparison::LessOrEqual);
    }
    if is_text(text, "jslt") {
        return Some(Comparison::LessSigned);
    }
    if is_text(text, "jsle") {
        return Some(Comparison::LessOrEqualSigned);
    }
    None
}

/// The word of a load or a store.
fn access(text: &[u8]) -> Option<Word>
    ensures { result ≡ lookup accesses text.now }
{
    if is_text(text, "ldxb") {
        return Some(Word::Load(Size::Byte));
    }
    if is_text(text, "ldxh") {
        return Some(Word::Load(Size::Half));
    }
    if is_text(text, "ldxw") {
        return Some(Word::Load(Size::Word));
    }
    if is_text(text, "ldxdw") {
        return Some(Word::Load(Size::Double));
    }
    if is_text(text, "ldxsb") {
        return Some(Word::LoadSigned(SignedSize::SignedByte));
    }
    if is_text(text, "ldxsh") {
        return Some(Word::LoadSigned(SignedSize::SignedHalf));
    }
    if is_text(text, "ldxsw") {
        return Some(Word::LoadSigned(SignedSize::SignedWord));
    }
    if is_text(text, "stb") {
        return Some(Word::Store(Size::Byte));
    }
    if is_text(text, "sth") {
        return Some(Word::Store(Size::Half));
    }
    if is_text(text, "stw") {
        return Some(Word::Store(Size::Word));
    }
    if is_text(text, "stdw") {
        return Some(Word::Store(Size::Double));
    }
    if is_text(text, "stxb") {
        return Some(Word::StoreRegister(Size::Byte));
    }
    if is_text(text, "stxh") {
        return Some(Word::StoreRegister(Size::Half));
    }
    if is_text(text, "stxw") {
        return Some(Word::StoreRegister(Size::Word));
    }
    if is_text(text, "stxdw") {
        return Some(Word::StoreRegister(Size::Double));
    }
    if is_text(text, "lddw") {
        return Some(Word::Wide);
    }
    None
}

/// The word of a jump without a test, of a call or of a return.
fn flow(text: &[u8]) -> Option<Word>
    ensures { result ≡ lookup flows text.now }
{
    if is_text(text, "exit") {
        return Some(Word::Exit);
    }
    if is_text(text, "ja") {
        return Some(Word::JumpNear);
    }
    if is_text(text, "ja32") {
        return Some(Word::JumpFar);
    }
    if is_text(text, "call") {
        return Some(Word::CallHelper);
    }
    if is_text(text, "calllocal") {
        return Some(Word::CallLocal);
    }
    None
}

/// The word that changes one register by no operation.
fn change(text: &[u8]) -> Option<Word>
    ensures { result ≡ lookup changes text.now }
{
    if is_text(text, "neg") {
        return Some(Word::Negate(Width::Bits64));
    }
    if is_text(text, "neg32") {
        return Some(Word::Negate(Width::Bits32));
    }
    if is_text(text, "le16") {
        return Some(Word::Swap(ByteOrder::Little, SwapBits::Low16));
    }
    if is_text(text, "le32") {
        return Some(Word::Swap(ByteOrder::Little, SwapBits::Low32));
    }
    if is_text(text, "le64") {
        return Some(Word::Swap(ByteOrder::Little, SwapBits::Low64));
    }
    if is_text(text, "be16") {
        return Some(Word::Swap(ByteOrder::Big, SwapBits::Low16));
    }
    if is_text(text, "be32") {
        return Some(Word::Swap(ByteOrder::Big, SwapBits::Low32));
    }
    if is_text(text, "be64") {
        return Some(Word::Swap(ByteOrder::Big, SwapBits::Low64));
    }
    if is_text(text, "swap16") {
        return Some(Word::Swap(ByteOrder::Reversed, SwapBits::Low16));
    }
    if is_text(text, "swap32") {
        return Some(Word::Swap(ByteOrder::Reversed, SwapBits::Low32));
    }
    if is_text(text, "swap64") {
        return Some(Word::Swap(ByteOrder::Reversed, SwapBits::Low64));
    }
    if is_text(text, "movsx8") {
        return Some(Word::MoveSigned(Extension::From8To64));
    }
    if is_text(text, "movsx16") {
        return Some(Word::MoveSigned(Extension::From16To64));
    }
    if is_text(text, "movsx32") {
        return Some(Word::MoveSigned(Extension::From32To64));
    }
    if is_text(text, "mov32sx8") {
        return Some(Word::MoveSigned(Extension::From8To32));
    }
    if is_text(text, "mov32sx16") {
        return Some(Word::MoveSigned(Extension::From16To32));
    }
    None
}

/// Whether a word is one of 32 bits.
fn is_short_word(text: &[u8]) -> bool
    ensures { result ≡ is_short text.now }
{
    text.len() >= 2 && is_text(&text[text.len() - 2..], "32")
}

/// The width of an arithmetic word or a branch, and its word of 64 bits.
fn width_and_stem(text: &[u8]) -> (Width, &[u8])
    ensures width { result.0 ≡ width_of text.now }
    ensures stem { result.1.now ≡ stem text.now }
{
    if is_short_word(text) {
        return (Width::Bits32, &text[..text.len() - 2]);
    }
    (Width::Bits64, text)
}

/// The word that a text is.
pub(crate) fn word(text: &[u8]) -> Option<Word>
    ensures { result ≡ word_of_text text.now }
{
    let (width, stem) = width_and_stem(text);
    if let Some(operation) = operation(stem) {
        return Some(Word::Alu(width, operation));
    }
    if let Some(word) = access(text) {
        return Some(word);
    }
    if let Some(comparison) = comparison(stem) {
        return Some(Word::Branch(width, comparison));
    }
    match flow(text) {
        Some(word) => Some(word),
        None => change(text),
    }
}

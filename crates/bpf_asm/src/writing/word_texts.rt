//! From a word to its text.
ghost use Rattle.std.specs.Prelude.{◌≡◌};
ghost use Rattle.bpf_asm.specs.Writing.{
  comparison_word,
  extension_word,
  jump_word,
  operation_word,
  order_word,
  register_text,
  signed_size_mark,
  size_mark,
  swap_mark,
  width_mark,
};

use bpf_isa::{
    ByteOrder, Comparison, Distance, Extension, Operation, Register, SignedSize, Size, SwapBits,
    Width,
};

/// The word of an operation of 64 bits.
pub(crate) fn word_of_operation(operation: Operation) -> &'static str
    ensures { result.now ≡ operation_word operation }
{
    match operation {
        Operation::Add => "add",
        Operation::Subtract => "sub",
        Operation::Multiply => "mul",
        Operation::Divide => "div",
        Operation::DivideSigned => "sdiv",
        Operation::Or => "or",
        Operation::And => "and",
        Operation::ShiftLeft => "lsh",
        Operation::ShiftRight => "rsh",
        Operation::Modulo => "mod",
        Operation::ModuloSigned => "smod",
        Operation::Xor => "xor",
        Operation::Move => "mov",
        Operation::ShiftRightSigned => "arsh",
    }
}

/// The word of a branch of 64 bits.
pub(crate) fn word_of_comparison(comparison: Comparison) -> &'static str
    ensures { result.now ≡ comparison_word comparison }
{
    match comparison {
        Comparison::Equal => "jeq",
        Comparison::Greater => "jgt",
        Comparison::GreaterOrEqual => "jge",
        Comparison::SharesBit => "jset",
        Comparison::NotEqual => "jne",
        Comparison::GreaterSigned => "jsgt",
        Comparison::GreaterOrEqualSigned => "jsge",
        Comparison::Less => "jlt",
        Comparison::LessOrEqual => "jle",
        Comparison::LessSigned => "jslt",
        Comparison::LessOrEqualSigned => "jsle",
    }
}

/// What stands after a word of 32 bits.
pub(crate) fn mark_of_width(width: Width) -> &'static str
    ensures { result.now ≡ width_mark width }
{
    match width {
        Width::Bits32 => "32",
        Width::Bits64 => "",
    }
}

pub(crate) fn word_of_extension(extension: Extension) -> &'static str
    ensures { result.now ≡ extension_word extension }
{
    match extension {
        Extension::From8To32 => "mov32sx8",
        Extension::From16To32 => "mov32sx16",
        Extension::From8To64 => "movsx8",
        Extension::From16To64 => "movsx16",
        Extension::From32To64 => "movsx32",
    }
}

pub(crate) fn word_of_order(order: ByteOrder) -> &'static str
    ensures { result.now ≡ order_word order }
{
    match order {
        ByteOrder::Little => "le",
        ByteOrder::Big => "be",
        ByteOrder::Reversed => "swap",
    }
}

pub(crate) fn mark_of_swap(bits: SwapBits) -> &'static str
    ensures { result.now ≡ swap_mark bits }
{
    match bits {
        SwapBits::Low16 => "16",
        SwapBits::Low32 => "32",
        SwapBits::Low64 => "64",
    }
}

pub(crate) fn word_of_jump(distance: Distance) -> &'static str
    ensures { result.now ≡ jump_word distance }
{
    match distance {
        Distance::Near(_) => "ja",
        Distance::Far(_) => "ja32",
    }
}

pub(crate) fn mark_of_size(size: Size) -> &'static str
    ensures { result.now ≡ size_mark size }
{
    match size {
        Size::Byte => "b",
        Size::Half => "h",
        Size::Word => "w",
        Size::Double => "dw",
    }
}

pub(crate) fn mark_of_signed_size(size: SignedSize) -> &'static str
    ensures { result.now ≡ signed_size_mark size }
{
    match size {
        SignedSize::SignedByte => "sb",
        SignedSize::SignedHalf => "sh",
        SignedSize::SignedWord => "sw",
    }
}

pub(crate) fn name_of_register(register: Register) -> &'static str
    ensures { result.now ≡ register_text register }
{
    match register {
        Register::R0 => "r0",
        Register::R1 => "r1",
        Register::R2 => "r2",
        Register::R3 => "r3",
        Register::R4 => "r4",
        Register::R5 => "r5",
        Register::R6 => "r6",
        Register::R7 => "r7",
        Register::R8 => "r8",
        Register::R9 => "r9",
        Register::R10 => "r10",
    }
}

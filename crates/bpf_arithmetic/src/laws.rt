//! Arithmetic at the limits of a width. Each function only makes public calls, and is proved from their contracts
//! alone.
ghost use Rattle.std.specs.Prelude.{◌≡◌, ◌-◌, ◌^◌, true, false};

use crate::arithmetic::{calculate, extend_sign, negate, swap};
use crate::comparison::holds;
use bpf_isa::{ByteOrder, Comparison, Extension, Operation, SwapBits, Width};

/// 2^32 is greater than 1 in 64 bits, and not in 32, where its low bits are 0.
pub fn comparisons_look_at_their_width() -> (bool, bool)
    ensures { result ≡ (true, false) }
{
    let (x, y) = (0x1_0000_0000, 1);
    (
        holds(Width::Bits64, Comparison::Greater, x, y),
        holds(Width::Bits32, Comparison::Greater, x, y),
    )
}

/// In 32 bits the negative of 2^32 + 1 is 2^32 - 1, and 1 more is 0.
pub fn short_results_are_short() -> (u64, u64)
    ensures { result ≡ (2 ^ 32 - 1, 0) }
{
    let x = 0x1_0000_0001;
    let negative = negate(Width::Bits32, x);
    (
        negative,
        calculate(Width::Bits32, Operation::Add, negative, 1),
    )
}

/// Of 16 bits 0x8000 extends with its sign, and 0x80 stays 128.
pub fn signs_extend_from_their_bit() -> (u64, u64)
    ensures { result ≡ (2 ^ 64 - 2 ^ 15, 128) }
{
    (
        extend_sign(Extension::From16To64, 0x8000),
        extend_sign(Extension::From16To64, 0x80),
    )
}

/// Swaps of the low 16 bits of a number, to both orders, and of its low 32 bits: the bytes above are dropped.
pub fn swaps_keep_the_low_bytes() -> (u64, u64, u64)
    ensures { result ≡ (13330, 4660, 873616896) }
{
    let x = 0x78_0056_1234;
    (
        swap(ByteOrder::Big, SwapBits::Low16, x),
        swap(ByteOrder::Little, SwapBits::Low16, x),
        swap(ByteOrder::Big, SwapBits::Low32, x),
    )
}

/// 7 divided by 0 is 0, and leaves 7.
pub fn division_by_zero_has_a_result() -> (u64, u64)
    ensures { result ≡ (0, 7) }
{
    (
        calculate(Width::Bits64, Operation::Divide, 7, 0),
        calculate(Width::Bits64, Operation::Modulo, 7, 0),
    )
}

/// The highest number is less than 1 with a sign, and greater without one.
pub fn signs_decide_signed_comparisons() -> (bool, bool)
    ensures { result ≡ (false, true) }
{
    let (x, y) = (u64::MAX, 1);
    (
        holds(Width::Bits64, Comparison::GreaterSigned, x, y),
        holds(Width::Bits64, Comparison::Greater, x, y),
    )
}

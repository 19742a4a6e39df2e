//! When a branch's comparison holds.
ghost use Rattle.std.specs.Prelude.{◌≡◌};
ghost use Rattle.bpf_model.specs.Arithmetic.{holds};

use crate::arithmetic::low_half;
use crate::{long, short};
use bpf_isa::{Comparison, Width};

/// Whether a branch's comparison holds of a register and its operand, in a width.
pub fn holds(width: Width, comparison: Comparison, x: u64, y: u64) -> bool
    ensures { result ≡ holds width comparison x y }
{
    match width {
        Width::Bits32 => short::compare(comparison, low_half(x), low_half(y)),
        Width::Bits64 => long::compare(comparison, x, y),
    }
}

//! How far it is between units.
ghost use Rattle.std.specs.Prelude.{◌≡◌, ◌^◌, IfSome};
ghost use Rattle.bpf_isa.specs.Encoding.{units_of};
ghost use Rattle.bpf_asm.specs.Assembly.{distance, jump_to as jump_to_of};

use crate::reading::item::Jumping;
use bpf_isa::{Distance, Instruction};

/// How far it is from a unit to another, if that is from -2^15 to 2^15 - 1.
fn near(from: usize, to: usize) -> Option<i16>
    ensures { result ≡ distance (2 ^ 15) from to }
{
    if from <= to {
        let ahead = to - from;
        if ahead >= 1 << 15 {
            return None;
        }
        return Some(ahead as i16);
    }
    let back = from - to;
    if back > 1 << 15 {
        return None;
    }
    Some((0 - back as i64) as i16)
}

/// How far it is from a unit to another, if that is from -2^31 to 2^31 - 1.
fn far(from: usize, to: usize) -> Option<i32>
    ensures { result ≡ distance (2 ^ 31) from to }
{
    if from <= to {
        let ahead = to - from;
        if ahead >= 1 << 31 {
            return None;
        }
        return Some(ahead as i32);
    }
    let back = from - to;
    if back > 1 << 31 {
        return None;
    }
    Some((0 - back as i64) as i32)
}

/// The instruction that goes to a unit, before this next one.
pub(crate) fn jump_to(jumping: Jumping, next: usize, to: usize) -> Option<Instruction>
    ensures exact { result ≡ jump_to_of jumping next to }
    ensures one { IfSome result (λ i. units_of i ≡ 1) }
{
    match jumping {
        Jumping::Near => {
            let distance = near(next, to)?;
            Some(Instruction::Jump {
                distance: Distance::Near(distance),
            })
        }
        Jumping::Far => {
            let distance = far(next, to)?;
            Some(Instruction::Jump {
                distance: Distance::Far(distance),
            })
        }
        Jumping::Call => {
            let distance = far(next, to)?;
            Some(Instruction::CallLocal { distance })
        }
        Jumping::Branch(width, comparison, left, right) => {
            let distance = near(next, to)?;
            Some(Instruction::Branch {
                width,
                comparison,
                left,
                right,
                distance,
            })
        }
    }
}

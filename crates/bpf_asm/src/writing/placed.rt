//! Instructions with the unit at which they start.
ghost use Rattle.std.specs.Prelude.{◌≡◌};
ghost use Rattle.bpf_asm.specs.Writing.{target_of, distance_of};

use bpf_isa::{Distance, Instruction};

/// An instruction and the unit at which it starts, one of the first 4,096.
#[derive(Clone, Copy, Debug, PartialEq, Eq)]
pub struct Placed {
    /// The unit at which it starts.
    pub pc: u16,
    /// The instruction.
    pub instruction: Instruction,
}

/// Where an instruction goes on, beside the instruction after it.
#[derive(Clone, Copy, Debug, PartialEq, Eq)]
pub enum Target {
    /// It is no jump and no local call.
    Nowhere,
    /// Before the first unit.
    Before,
    /// At this unit.
    At(usize),
}

/// How far an instruction goes, if it is a jump or a local call.
fn distance(instruction: Instruction) -> Option<i32>
    ensures { result ≡ distance_of instruction }
{
    match instruction {
        Instruction::Jump { distance } => Some(match distance {
            Distance::Near(distance) => i32::from(distance),
            Distance::Far(distance) => distance,
        }),
        Instruction::Branch { distance, .. } => Some(i32::from(distance)),
        Instruction::CallLocal { distance } => Some(distance),
        _ => None,
    }
}

impl Placed {
    /// Where the instruction goes on, beside the instruction after it.
    pub fn target(&self) -> Target
        ensures { result ≡ target_of self.now.pc self.now.instruction }
    {
        let Some(distance) = distance(self.instruction) else {
            return Target::Nowhere;
        };
        let place = i64::from(self.pc) + 1 + i64::from(distance);
        if place < 0 {
            return Target::Before;
        }
        Target::At(place as usize)
    }
}

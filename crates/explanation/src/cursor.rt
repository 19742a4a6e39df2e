//! The way over the units of a code, from one instruction to the next.
ghost use Rattle.std.specs.Prelude.{◌≡◌, ◌<◌, ◌+◌};
ghost use Rattle.bpf_image.specs.Program.{units};
ghost use Rattle.explanation.specs.Starts.{IsAt};

use crate::instructions::units_at;
use bpf_image::Image;

/// How far the way over the units has come.
#[derive(Clone, Copy)]
pub(crate) struct Cursor {
    /// Where the next instruction starts, here or after.
    pub(crate) next: usize,
    /// How many instructions start before here.
    pub(crate) ordinal: usize,
}

impl Cursor {
    /// Before the first unit.
    pub(crate) fn first() -> Cursor
        ensures next { result.next ≡ 0 }
        ensures ordinal { result.ordinal ≡ 0 }
    {
        Cursor {
            next: 0,
            ordinal: 0,
        }
    }

    /// One unit on.
    #[tactic(auto, using(crate::proofs::Starts::at_behind, crate::proofs::Starts::at_past))]
    pub(crate) fn past(self, image: &Image, pc: usize) -> Cursor
        requires at { IsAt image.now pc self }
        requires inside { pc < units image.now }
        ensures { IsAt image.now (pc + 1) result }
    {
        if self.next != pc {
            return self;
        }
        Cursor {
            next: pc + units_at(image, pc),
            ordinal: self.ordinal + 1,
        }
    }
}

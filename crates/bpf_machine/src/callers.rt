//! What is kept for the functions that wait for one that they called.
ghost use Rattle.std.specs.Prelude.{◌≡◌, ◌+◌, [], ◌∷◌, ◌<◌, ◌≤◌, IfSome, IsNone};
ghost use Rattle.bpf_machine.specs.declared.callers.TheConstants.{MOST_CALLERS};

use bpf_model::MOST_FRAMES;

/// How many callers may wait: each has a frame, and so has the function that runs.
pub const MOST_CALLERS: usize = MOST_FRAMES - 1;

/// What is kept for a caller.
#[derive(Clone, Copy, Drop)]
pub struct Kept {
    /// Its R6 to R9.
    pub registers: [Option<u64>; 4],
    /// Where it goes on.
    pub return_pc: i64,
}

/// The callers that wait, from the first.
#[derive(Drop)]
pub struct Callers {
    pub kept: [Kept; MOST_CALLERS],
    pub count: usize,
    ghost few: { count ≤ MOST_CALLERS },
}

impl Callers {
    ghost use Rattle.bpf_machine.specs.Seen.{saved_of, callers_of};

    /// None waits.
    pub(crate) fn new() -> Callers
        ensures { result.count ≡ 0 }
    {
        let none = Kept {
            registers: [None; 4],
            return_pc: 0,
        };
        Callers {
            kept: [none; MOST_CALLERS],
            count: 0,
        }
    }

    /// One more waits.
    pub(crate) fn push(&mut self, caller: Kept)
        requires { self.old.count < MOST_CALLERS }
        ensures pushed { callers_of self.new.kept self.new.count
            ≡ saved_of caller ∷ callers_of self.old.kept self.old.count }
        ensures count { self.new.count ≡ self.old.count + 1 }
    {
        self.kept[self.count] = caller;
        self.count += 1;
    }

    /// The last caller waits no longer, if one does.
    pub(crate) fn pop(&mut self) -> Option<Kept>
        ensures last { IfSome result (λ caller. callers_of self.old.kept self.old.count
            ≡ saved_of caller ∷ callers_of self.new.kept self.new.count) }
        ensures count { IfSome result (λ caller. self.old.count ≡ self.new.count + 1) }
        ensures none { IsNone result → (callers_of self.old.kept self.old.count ≡ []) × (self.new ≡ self.old) }
    {
        if self.count == 0 {
            return None;
        }
        self.count -= 1;
        Some(self.kept[self.count])
    }
}

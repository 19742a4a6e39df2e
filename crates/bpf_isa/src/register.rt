//! The registers and their numbers.
ghost use Rattle.std.specs.Prelude.{◌≡◌, ◌<◌, ◌↔◌, IsNone, IfSome};
ghost use Rattle.bpf_isa.specs.Encoding.{number_of};
ghost use Rattle.bpf_isa.specs.Reading.{register_at};

/// A register (RFC 9669, section 2.3). R10 is the frame pointer, which programs only read.
#[derive(Clone, Copy, Debug, PartialEq, Eq)]
pub enum Register {
    R0,
    R1,
    R2,
    R3,
    R4,
    R5,
    R6,
    R7,
    R8,
    R9,
    R10,
}

impl Register {
    /// The number that spells the register in an instruction, 0 to 10.
    pub fn number(self) -> u8
        ensures exact { result ≡ number_of self }
        ensures limit { result < 11 }
    {
        match self {
            Register::R0 => 0,
            Register::R1 => 1,
            Register::R2 => 2,
            Register::R3 => 3,
            Register::R4 => 4,
            Register::R5 => 5,
            Register::R6 => 6,
            Register::R7 => 7,
            Register::R8 => 8,
            Register::R9 => 9,
            Register::R10 => 10,
        }
    }

    /// The register that a number spells: none above 10.
    #[tactic(auto, unfolding(crate::specs::Reading::register_at))]
    pub fn from_number(number: u8) -> Option<Register>
        ensures found { IfSome result (λ r. number_of r ≡ number) }
        ensures none { IsNone result ↔ (10 < number) }
        ensures exact { result ≡ register_at number }
    {
        match number {
            0 => Some(Register::R0),
            1 => Some(Register::R1),
            2 => Some(Register::R2),
            3 => Some(Register::R3),
            4 => Some(Register::R4),
            5 => Some(Register::R5),
            6 => Some(Register::R6),
            7 => Some(Register::R7),
            8 => Some(Register::R8),
            9 => Some(Register::R9),
            10 => Some(Register::R10),
            _ => None,
        }
    }
}

//! The instructions, with their operations, comparisons and sizes.
ghost use Rattle.std.specs.Prelude.{◌≡◌, ◌≤◌};
ghost use Rattle.bpf_isa.specs.Encoding.{extension_width, units_of};
ghost use Rattle.bpf_isa.specs.Sizes.{plain_size, size_bytes};

use crate::register::Register;

/// How many low bits of a register an operation works on (RFC 9669, sections 4.1 and 4.3).
#[derive(Clone, Copy, Debug, PartialEq, Eq)]
pub enum Width {
    /// The classes ALU and JMP32.
    Bits32,
    /// The classes ALU64 and JMP.
    Bits64,
}

/// What an arithmetic instruction computes (RFC 9669, section 4.1).
#[derive(Clone, Copy, Debug, PartialEq, Eq)]
pub enum Operation {
    Add,
    Subtract,
    Multiply,
    /// The quotient of unsigned numbers.
    Divide,
    /// The quotient of signed numbers, cut towards zero.
    DivideSigned,
    Or,
    And,
    ShiftLeft,
    /// The shift that fills with zeros.
    ShiftRight,
    /// The remainder of unsigned numbers.
    Modulo,
    /// The remainder of signed numbers, with the sign of the dividend.
    ModuloSigned,
    Xor,
    Move,
    /// The shift that fills with the sign.
    ShiftRightSigned,
}

/// What a conditional jump tests (RFC 9669, section 4.3).
#[derive(Clone, Copy, Debug, PartialEq, Eq)]
pub enum Comparison {
    Equal,
    Greater,
    GreaterOrEqual,
    /// Some bit is set in both numbers.
    SharesBit,
    NotEqual,
    GreaterSigned,
    GreaterOrEqualSigned,
    Less,
    LessOrEqual,
    LessSigned,
    LessOrEqualSigned,
}

/// The second number of an operation or a comparison.
#[derive(Clone, Copy, Debug, PartialEq, Eq)]
pub enum Operand {
    /// The instruction's own 32 bits.
    Immediate(i32),
    /// A register's number.
    Source(Register),
}

/// How many bytes are read or written (RFC 9669, section 5).
#[derive(Clone, Copy, Debug, PartialEq, Eq)]
pub enum Size {
    /// 1 byte.
    Byte,
    /// 2 bytes.
    Half,
    /// 4 bytes.
    Word,
    /// 8 bytes.
    Double,
}

impl Size {
    /// How many bytes it is.
    pub fn bytes(self) -> u8
        ensures value { result ≡ size_bytes self }
        ensures some { 1 ≤ result }
        ensures limit { result ≤ 8 }
    {
        match self {
            Size::Byte => 1,
            Size::Half => 2,
            Size::Word => 4,
            Size::Double => 8,
        }
    }
}

/// How many bytes a sign-extending load reads (RFC 9669, section 5.2).
#[derive(Clone, Copy, Debug, PartialEq, Eq)]
pub enum SignedSize {
    /// 1 byte.
    SignedByte,
    /// 2 bytes.
    SignedHalf,
    /// 4 bytes.
    SignedWord,
}

impl SignedSize {
    /// The plain size of as many bytes.
    pub fn plain(self) -> Size
        ensures { result ≡ plain_size self }
    {
        match self {
            SignedSize::SignedByte => Size::Byte,
            SignedSize::SignedHalf => Size::Half,
            SignedSize::SignedWord => Size::Word,
        }
    }
}

/// Which low bits a sign-extending move takes, and how wide its result is (RFC 9669, section 4.1).
#[derive(Clone, Copy, Debug, PartialEq, Eq)]
pub enum Extension {
    From8To32,
    From16To32,
    From8To64,
    From16To64,
    From32To64,
}

impl Extension {
    /// How wide the result is.
    pub fn width(self) -> Width
        ensures { result ≡ extension_width self }
    {
        match self {
            Extension::From8To32 | Extension::From16To32 => Width::Bits32,
            Extension::From8To64 | Extension::From16To64 | Extension::From32To64 => Width::Bits64,
        }
    }
}

/// Which byte order a swap gives, on a little-endian host (RFC 9669, section 4.2).
#[derive(Clone, Copy, Debug, PartialEq, Eq)]
pub enum ByteOrder {
    /// To little-endian: the bytes stay.
    Little,
    /// To big-endian: the bytes are reversed.
    Big,
    /// The bytes are reversed on any host.
    Reversed,
}

/// How many low bits a swap keeps.
#[derive(Clone, Copy, Debug, PartialEq, Eq)]
pub enum SwapBits {
    Low16,
    Low32,
    Low64,
}

/// How far an unconditional jump goes, in units from the instruction after it (RFC 9669, section 4.3).
#[derive(Clone, Copy, Debug, PartialEq, Eq)]
pub enum Distance {
    /// In the offset field: `JA` of the class JMP.
    Near(i16),
    /// In the immediate field: `JA` of the class JMP32.
    Far(i32),
}

/// An instruction of RFC 9669, conformance groups base64 and divmul64. Each value has one spelling.
#[derive(Clone, Copy, Debug, PartialEq, Eq)]
pub enum Instruction {
    /// `destination = destination operation operand`, in a width.
    Alu {
        width: Width,
        operation: Operation,
        destination: Register,
        operand: Operand,
    },
    /// `destination = source`, its low bits extended by their sign.
    MoveSigned {
        extension: Extension,
        destination: Register,
        source: Register,
    },
    /// `destination = -destination`, in a width.
    Negate {
        width: Width,
        destination: Register,
    },
    /// The low bits of the destination in a byte order.
    Swap {
        order: ByteOrder,
        bits: SwapBits,
        destination: Register,
    },
    /// Goes on at a distance.
    Jump {
        distance: Distance,
    },
    /// Goes on at a distance, in units from the next instruction, where `left comparison right`.
    Branch {
        width: Width,
        comparison: Comparison,
        left: Register,
        right: Operand,
        distance: i16,
    },
    /// Calls a helper function by its number.
    CallHelper {
        number: i32,
    },
    /// Calls the program's own function at a distance, in units from the next instruction.
    CallLocal {
        distance: i32,
    },
    /// Returns from the function.
    Exit,
    /// `destination = *(base + offset)`, extended by zeros.
    Load {
        size: Size,
        destination: Register,
        base: Register,
        offset: i16,
    },
    /// `destination = *(base + offset)`, extended by the sign.
    LoadSigned {
        size: SignedSize,
        destination: Register,
        base: Register,
        offset: i16,
    },
    /// `*(base + offset) = immediate`.
    Store {
        size: Size,
        base: Register,
        offset: i16,
        immediate: i32,
    },
    /// `*(base + offset) = source`.
    StoreRegister {
        size: Size,
        base: Register,
        offset: i16,
        source: Register,
    },
    /// `destination = value`, in two units.
    Wide {
        destination: Register,
        value: u64,
    },
}

impl Instruction {
    /// How many units of 8 bytes the instruction takes: 2 for a wide load, 1 for any other.
    pub fn units(&self) -> usize
        ensures { result ≡ units_of self.now }
    {
        match self {
            Instruction::Wide { .. } => 2,
            _ => 1,
        }
    }
}

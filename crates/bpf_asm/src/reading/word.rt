//! The words that begin a statement.
use bpf_isa::{ByteOrder, Comparison, Extension, Operation, SignedSize, Size, SwapBits, Width};

/// The word of a statement, which says what its arguments have to be.
#[derive(Clone, Copy)]
pub enum Word {
    Alu(Width, Operation),
    MoveSigned(Extension),
    Negate(Width),
    Swap(ByteOrder, SwapBits),
    JumpNear,
    JumpFar,
    CallLocal,
    Branch(Width, Comparison),
    CallHelper,
    Exit,
    Load(Size),
    LoadSigned(SignedSize),
    Store(Size),
    StoreRegister(Size),
    Wide,
}

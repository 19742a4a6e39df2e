//! A row of the table of instructions.
use crate::instruction::{
    ByteOrder, Comparison, Extension, Operation, SignedSize, Size, SwapBits, Width,
};

/// A row of the table of instructions: all of an instruction but its registers and numbers.
#[derive(Clone, Copy)]
pub(crate) enum Row {
    ImmediateAlu {
        width: Width,
        operation: Operation,
    },
    RegisterAlu {
        width: Width,
        operation: Operation,
    },
    MoveSigned {
        extension: Extension,
    },
    Negate {
        width: Width,
    },
    Swap {
        order: ByteOrder,
        bits: SwapBits,
    },
    NearJump,
    FarJump,
    ImmediateBranch {
        width: Width,
        comparison: Comparison,
    },
    RegisterBranch {
        width: Width,
        comparison: Comparison,
    },
    CallHelper,
    CallLocal,
    Exit,
    Load {
        size: Size,
    },
    LoadSigned {
        size: SignedSize,
    },
    Store {
        size: Size,
    },
    StoreRegister {
        size: Size,
    },
    Wide,
}

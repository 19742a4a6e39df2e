//! What a BPF program means: the state of a run, the step relation and whole runs. Definitions (in `specs/`),
//! the types that they name, and laws.
#![tactic(auto)]

pub mod arithmetic_laws;
mod cause;
mod helper;
pub mod laws;
mod limits;
mod outcome;
mod trap;

pub use cause::Cause;
pub use helper::Helper;
pub use limits::{
    FRAME_BYTES, FRAME_SPACE, MOST_FRAMES, MOST_GATHER_BYTES, RECORD_BASE, STACK_BASE, TABLE_BASE,
};
pub use outcome::Outcome;
pub use trap::TrapKind;

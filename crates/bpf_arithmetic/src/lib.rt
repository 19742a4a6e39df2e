//! The arithmetic of BPF (RFC 9669, sections 4.1 to 4.3): what an instruction makes of numbers, and
//! whether a comparison holds of them. All functions are pure, and none takes memory.
#![tactic(auto)]

mod arithmetic;
mod comparison;
pub mod laws;
mod long;
mod short;

pub use arithmetic::{calculate, extend_sign, negate, swap};
pub use comparison::holds;

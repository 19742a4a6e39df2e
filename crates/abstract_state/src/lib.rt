//! What is known of all registers and of the stacks of all live frames at a place in a program, and how loads,
//! stores, calls of functions and helpers, and the meeting of two ways change it. A copy, the entry of a program and
//! the call of a function take memory.
#![tactic(auto)]

mod calls;
mod copying;
mod joining;
pub mod laws;
mod memory;
mod stack;
mod state;

pub use calls::{enter_call, leave_call, return_from_helper};
pub use joining::join_into;
pub use memory::{Address, gather, load, load_signed, store};
pub use state::{AbstractState, Frame, MOST_CALLERS};

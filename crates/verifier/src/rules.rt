//! The rules over one instruction: what it asks of what is known before it, and what is known on each way after it.
//! Every step of a run follows one of these ways, enters a function or returns from one. No call takes memory.
mod access;
mod arithmetic;
mod branches;
mod helpers;
mod instruction;
mod onward;
mod reading;
mod writing;

pub(crate) use branches::exit;
pub use instruction::step_over;
pub use onward::Onward;
pub(crate) use writing::take_side;

//! What is gone through as one.
use abstract_state::AbstractState;

/// A function that is to be gone through: where it begins, in which frame it runs, and what is known where it begins.
#[derive(Drop)]
pub(crate) struct Passage {
    pub entry: usize,
    pub frame: u8,
    pub known: AbstractState,
}

/// A pc of a passage, and the frame that the passage runs in.
#[derive(Clone, Copy)]
pub(crate) struct Point {
    pub pc: usize,
    pub frame: u8,
}

//! What a pass over what is shown knows, as the rule of showing has it.
use crate::recorded::Recorded;

/// What a pass of the board knows: a version's moment, or nothing. No value of it is made.
pub(crate) struct BoardView {
    pub knows: bool,
    pub version: Recorded,
}

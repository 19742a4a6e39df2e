//! What a pass of the readers' places knows, as the rule of the places has it.
use crate::recorded::Recorded;

/// What a pass of the pool knows: that it is the only one, or a moment of the store. No value of it is made.
pub(crate) struct Member {
    pub sole: bool,
    pub of: Recorded,
}

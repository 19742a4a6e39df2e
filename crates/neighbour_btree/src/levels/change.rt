//! What comes of a change.

/// What a node becomes by one word more.
#[derive(Drop)]
pub(crate) enum Grown<N> {
    /// The word is there already.
    Same,
    /// The node with the word, or the two that it was cut into.
    New(N, Option<N>),
}

/// What came of a change in place.
#[derive(Clone, Copy)]
pub(crate) enum Change {
    /// There was nothing to change.
    Same,
    /// The node has changed.
    Changed,
    /// The node cannot do it alone, and is as it was: it is shared, or too large or too small for it.
    Unable,
}

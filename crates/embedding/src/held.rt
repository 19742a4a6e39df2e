//! What a handle can hold.
use crate::runnable::Runnable;
use crate::store::Store;
use std::sync::Arc;
use version::Version;

/// What a handle can hold.
#[derive(Drop)]
pub enum Held {
    /// A graph that changes.
    Store(Store),
    /// One state of it, which other handles may hold too.
    Version(Arc<Version>),
    /// A program that the verifier accepted, which other handles may hold too.
    Program(Runnable),
}

//! Shards that several threads drop.

use shards::Shard;
use std::sync::Arc;
use std::thread::{Threads, join};

/// Lets lists of shards go, each by a thread of its own, or by this one where none can be started. All threads that were started
/// have ended.
pub(crate) fn let_go_each<R: Threads>(rt: &R, lists: Vec<Vec<Arc<Shard>>>) {
    let mut rest = lists;
    let Some(own) = rest.pop() else {
        return;
    };
    join(rt, move || drop(own), move || let_go_each(rt, rest));
}

//! An output that keeps what it takes.
ghost use Rattle.std.specs.Prelude.{None};

use service::{Failure, Output};
use std::alloc::Global;

/// All that was written.
#[derive(Drop)]
pub struct Kept {
    bytes: Vec<u8>,
    failures: u64,
}

impl Kept {
    /// Nothing was written.
    pub(crate) fn new(alloc: Global) -> Kept {
        Kept {
            bytes: Vec::new(alloc),
            failures: 0,
        }
    }

    /// What was written.
    pub(crate) fn bytes(&self) -> &[u8] {
        self.bytes.as_slice()
    }
}

impl Output for Kept {
    ghost contents = { λ _. None };

    ghost failures = { λ k. k.failures };

    fn write(&mut self, bytes: &[u8]) -> Result<usize, Failure> {
        if self.bytes.extend_from_slice(bytes).is_err() {
            self.failures = self.failures.wrapping_add(1);
            return Err(Failure);
        }
        Ok(bytes.len())
    }
}

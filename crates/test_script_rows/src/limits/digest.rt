//! An output that keeps of what it takes the length and a digest.
ghost use Rattle.std.specs.Prelude.{None};

use service::{Failure, Output};

/// The length of what was written, and its digest: FNV-1a with 64 bits.
#[derive(Drop)]
pub struct Digest {
    length: u64,
    digest: u64,
}

impl Digest {
    /// Nothing is written.
    pub(crate) fn new() -> Digest {
        Digest {
            length: 0,
            digest: 0xcbf2_9ce4_8422_2325,
        }
    }

    /// How many bytes were written.
    pub(crate) fn length(&self) -> u64 {
        self.length
    }

    /// The digest of these bytes.
    pub(crate) fn digest(&self) -> u64 {
        self.digest
    }
}

impl Output for Digest {
    ghost contents = { λ _. None };

    ghost failures = { λ _. 0 };

    fn write(&mut self, bytes: &[u8]) -> Result<usize, Failure> {
        for byte in bytes {
            self.digest = (self.digest ^ u64::from(*byte)).wrapping_mul(0x0100_0000_01b3);
        }
        self.length = self.length.wrapping_add(bytes.len() as u64);
        Ok(bytes.len())
    }
}

//! Why there is no image.
ghost use Rattle.std.specs.Prelude.{◌≡◌};
ghost use Rattle.bpf_image.specs.declared.image_error.ImageError.TheVariants.{OutOfMemory};

use std::alloc::AllocError;
use thiserror::Error;

/// Why there is no image.
#[derive(Clone, Copy, Debug, PartialEq, Eq, Error)]
pub enum ImageError {
    /// The bytes don't begin with `BPE1` or `BPE2`.
    #[error("the bytes are not those of an image")]
    Magic = 1,
    /// There are fewer or more bytes than the image's numbers say, or too few for these numbers.
    #[error("the image has another length")]
    Length = 2,
    /// The record length is not 16 to 256 bytes.
    #[error("the record length is not 16 to 256")]
    RecordLength = 3,
    /// The code is not 1 to 4,096 whole units of 8 bytes.
    #[error("the code is not 1 to 4096 units")]
    CodeLength = 4,
    /// Memory ran out.
    #[error("out of memory")]
    OutOfMemory = 5,
    /// The table is not 1 to 4,096 bytes.
    #[error("the table is not 1 to 4096 bytes")]
    TableLength = 6,
}

impl From<AllocError> for ImageError {
    ghost from_gives = { λ _ e. e ≡ OutOfMemory };

    fn from(_error: AllocError) -> ImageError {
        ImageError::OutOfMemory
    }
}

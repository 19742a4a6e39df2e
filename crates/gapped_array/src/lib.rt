//! The neighbours of up to 256 vertices in one packed array, in runs of segments of 32 places.
#![tactic(auto)]

mod array;
mod cells;
pub mod laws;
mod packing;
mod run;

pub use array::GappedArray;
pub use run::{SEGMENT, VERTICES};

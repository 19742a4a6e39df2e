//! Images: the code of a program together with the length of the record that each run is lent and a
//! table that it reads, made of these or read from bytes.
#![tactic(auto)]

mod format;
mod image;
mod image_error;
pub mod laws;
mod lengths;
mod limits;

pub use image::Image;
pub use image_error::ImageError;
pub use lengths::Lengths;
pub use limits::{LEAST_RECORD_LENGTH, MOST_RECORD_LENGTH, MOST_TABLE_LENGTH};

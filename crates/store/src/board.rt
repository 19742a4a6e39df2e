//! What a publisher shows to readers in other threads: one version at a time, and each one continues the one before.
mod board;
mod board_view;
mod errors;
mod member;
mod opening;
mod pool;
mod rule;
mod shown;
mod viewer;

pub(crate) use self::board::Board;
pub use errors::{NoPlace, PinError};
pub(crate) use opening::open_board;
pub(crate) use viewer::Viewer;

//! A counter whose numbers are claimed by several threads: each number once, and all below what it has come to.
#![tactic(auto)]

mod claimant;
mod counter;
mod hand;
pub mod laws;
mod limits;
mod rule;

pub use claimant::Claimant;
pub use counter::Counter;
pub use limits::{CLAIMS_OF_A_PART, PARTS};

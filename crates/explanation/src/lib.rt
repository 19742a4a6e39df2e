//! Why a program is refused, or what is known of an accepted one, as a text for a person.
#![tactic(auto)]

mod advice;
mod cursor;
mod ending;
mod explaining;
mod instructions;
mod judgement;
mod labels;
pub mod laws;
mod listing;
mod source;
mod values;
mod words;

pub use explaining::{Explanation, explain};
pub use judgement::Judgement;
pub use source::{SourceLine, source_lines};

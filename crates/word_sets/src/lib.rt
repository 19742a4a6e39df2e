//! Sets of words, as the contracts of the homes of neighbour lists name them: ascending lists, membership, one word
//! more and one word less. Here stand the definitions (in `specs/`), their laws, and the search for a word.
#![tactic(auto)]

pub mod laws;
mod places;

pub use places::{WORD_LIMIT, place};

//! The verifier: which programs are accepted, by rules over their instructions and by what is known
//! of every register and stack byte at each of them, and how many instructions and
//! stack frames a run of an accepted one takes.
#![tactic(auto)]

mod actions;
mod flow;
mod functions;
mod known;
pub mod laws;
mod layout;
mod listing;
mod passage;
mod places;
mod refusal;
pub mod rule_laws;
mod rules;
mod states;
mod verified;
mod walking;
mod weights;
mod worth;
mod writing;

pub use bpf_model::Cause;
pub use bpf_operations::Action;
pub use known::{KnownPassage, known_states};
pub use refusal::Refusal;
pub use rules::{Onward, step_over};
pub use verified::{Verified, verify};
pub use weights::{MOST_COUNTED, MOST_PAIRS};
pub use worth::{SLOTS, SLOTS_BYTES, WhySingly, why_singly};

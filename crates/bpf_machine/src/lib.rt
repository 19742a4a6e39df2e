//! The machine: it tests everything that a program does, and stops it where it may not go on.
#![tactic(auto)]

mod access;
mod alu;
mod branch;
mod callers;
mod calls;
mod effect;
mod helpers;
mod machine;
mod memory;
mod run;
mod stack;
mod stores;
mod turn;

pub use bpf_model::{Outcome, TrapKind};
pub use graph_model::GraphView;
pub use run::run_checked;

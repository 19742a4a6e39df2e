//! Tests of answers that somebody else computed, and the laws that what passes is right: a search's levels, the labels of components, core
//! numbers, and independent sets.
#![tactic(auto)]

mod components;
mod cores;
mod independent;
pub mod laws;
mod search;

pub use components::{Components, are_components};
pub use cores::{Cores, are_cores};
pub use graph_model::GraphView;
pub use independent::is_independent_set;
pub use search::{NOT_FOUND, Search, is_search};

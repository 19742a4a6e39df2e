//! What a graph is, and what it answers a program. The other crates' contracts speak in these words; here
//! stand the definitions (in `specs/`), the trait of a graph that is asked, and their laws.
#![tactic(auto)]

pub mod laws;
mod view;

pub use view::GraphView;

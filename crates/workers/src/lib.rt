//! How many threads work on something, and a gate around each piece of their work.
#![tactic(auto)]

mod crew;
mod gate;
mod holding;
pub mod laws;
mod limits;
mod work_error;
mod workers;

pub use crew::Crew;
pub use gate::{Gate, OpenGate};
pub use holding::HoldingGate;
pub use limits::MOST_WORKERS;
pub use work_error::WorkError;
pub use workers::Workers;

//! The workers of whoever has several pieces of work, with all that they need.

use crate::workers::Workers;

/// Who works: how many workers, what starts their threads and lets them wait, and the gate around each piece.
pub struct Crew<'a, R, Ga> {
    /// What starts threads and lets them wait.
    pub rt: &'a R,
    /// How many they are.
    pub workers: Workers,
    /// What stands around each piece.
    pub gate: &'a Ga,
}

//! What a step of a program touches: it writes only bytes of its record and of its live frames, and reads only these and
//! those of its table.
#![tactic(auto)]

pub mod laws;

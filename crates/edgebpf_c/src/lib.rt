//! What C calls: one function for each of the header `bindings/c/edgebpf.h`, over what handles hold. Each takes out what a
//! handle holds, calls `embedding`, and puts it back. None asks anything of its caller.
#![tactic(auto)]

mod columns;
mod lists;
mod programs;
mod pushes;
mod runs;
mod stores;
mod tested;
mod versions;

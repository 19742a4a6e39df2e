//! Calls that take memory, one after another. It prints which of them was refused, and is run with each of its allocations failing in turn.
#![tactic(auto)]

mod calls;
mod editing;
mod homes;
mod publishing;
mod rebasing;
mod stop;
mod texts;

use calls::{apply, list_and_map, run_events};
use editing::edit_lists;
use homes::change_homes;
use publishing::publish_twice;
use rebasing::{rebase_before, rebase_between};
use std::alloc::Global;
use std::io;
use std::sync::Wait;
use std::thread::Threads;
use stop::Stop;
use texts::assemble_and_verify;

fn call_all<R: Threads + Wait>(rt: &R, alloc: Global) -> Result<(), Stop> {
    change_homes(alloc)?;
    edit_lists(rt, alloc)?;
    assemble_and_verify(alloc)?;
    publish_twice(rt, alloc)?;
    rebase_before(rt, alloc)?;
    rebase_between(rt, alloc)?;
    run_events(alloc)?;

    // What two workers do comes last: their allocations come in any order.
    list_and_map(rt, alloc)?;
    apply(rt, alloc)
}

fn main(rt: HostRuntime) -> io::Result<()> {
    let text = match call_all(&rt, rt.alloc()) {
        Ok(()) => "done",
        Err(stop) => stop.text(),
    };
    println!(rt; "{text}")
}

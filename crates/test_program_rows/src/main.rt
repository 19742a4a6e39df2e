//! Reads rows about BPF programs, and prints for each block of them whether all came out as they say.
#![tactic(auto)]

mod answers;
mod assembling;
mod block;
mod code;
mod decoding;
mod edgeless;
mod images;
mod numbers;
mod report;
mod rules;
mod running;
mod values;
mod verdicts;

use anyhow::Result;
use block::Block;
use report::report_on;
use std::io;

fn main(rt: HostRuntime) -> Result<()> {
    let alloc = rt.alloc();
    let text = io::read_to_string(alloc, rt.stdin())?;
    // What stands before the first block says what the file is.
    for part in text.split("\n%% ").skip(1) {
        let told = report_on(alloc, &Block::read(part))?;
        println!(rt; "{told}")?;
    }
    Ok(())
}

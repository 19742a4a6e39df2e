//! Runs of the machine.
use crate::edgeless::Edgeless;
use crate::images::image_of;
use anyhow::Result;
use bpf_machine::{Outcome, run_checked};
use std::alloc::{AllocError, Global};

/// The record that each run is lent.
const RECORD: [u8; 16] = [
    0x11, 0x22, 0x33, 0x44, 2, 0, 0, 0, 0x88, 0x77, 0x66, 0x55, 0x44, 0x33, 0x22, 0xf1,
];

/// How a run ended.
fn ending(alloc: Global, outcome: Outcome) -> Result<String, AllocError> {
    match outcome {
        Outcome::Exit { value, steps } => format!(in alloc; "exit {value:#x}, {steps} steps"),
        Outcome::Trap { kind, pc } => format!(in alloc; "trap {} {kind:?}, pc {pc}", kind as u8),
        Outcome::OutOfFuel => String::from_str(alloc, "out of fuel"),
    }
}

/// Adds the record to the report on a run, if it has changed.
fn with_record(alloc: Global, told: String, record: &[u8]) -> Result<String, AllocError> {
    if record == RECORD.as_slice() {
        return Ok(told);
    }
    let digits = hex::encode(alloc, record)?;
    format!(in alloc; "{told}, record {digits}")
}

/// How a program's run over that record ends with so much fuel, on a graph of three vertices without an edge.
pub(crate) fn ran(alloc: Global, fuel: u64, input: &str) -> Result<String> {
    let Some(image) = image_of(alloc, 16, input)? else {
        return Ok(String::from_str(alloc, "no image")?);
    };
    let mut record = RECORD;
    let graph = Edgeless { vertices: 3 };
    let outcome = run_checked(&image, &mut record, &graph, fuel);
    Ok(with_record(alloc, ending(alloc, outcome)?, &record)?)
}

//! What comes of a row, by the kind of its block.
use crate::assembling::{assembled, assembled_often, listed};
use crate::block::Block;
use crate::decoding::decoded;
use crate::images::{loaded, made};
use crate::numbers::numbers_of;
use crate::rules::{met, stepped};
use crate::running::ran;
use crate::verdicts::{explained, verified};
use anyhow::{Result, bail};
use bpf_image::{LEAST_RECORD_LENGTH, Lengths};
use std::alloc::Global;

/// What comes of a row of a block.
pub(crate) fn answer(alloc: Global, block: &Block<'_>, input: &str) -> Result<String> {
    let number = block.number;
    let record_length = u16::try_from(number).unwrap_or(0);
    let lengths = Lengths {
        record_length,
        table_length: 0,
    };
    let with_table = Lengths {
        record_length: LEAST_RECORD_LENGTH,
        table_length: record_length,
    };
    match block.kind {
        "decode" => decoded(alloc, number, input),
        "assemble" => assembled(alloc, input),
        "assemble_behind" => assembled_often(alloc, number, input),
        "list" => listed(alloc, input),
        "image" => made(alloc, record_length, input),
        "load" => loaded(alloc, input),
        "run" => ran(alloc, number, input),
        "verify" => verified(alloc, record_length, input),
        "explain" => explained(alloc, record_length, input),
        "step" => stepped(alloc, lengths, input),
        "meet" => met(alloc, lengths, input),
        "step_with_table" => stepped(alloc, with_table, input),
        "meet_with_table" => met(alloc, with_table, input),
        "numbers" => numbers_of(alloc, input),
        kind => bail!("{kind} is no kind of rows"),
    }
}

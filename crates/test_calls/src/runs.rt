//! The programs of the examples and those compiled from C, run both ways.
ghost use Rattle.std.specs.Prelude.{◌≡◌, ◌≤◌, IfOk, length as count_of};

use crate::shop::pin_of;
use bpf_image::Image;
use bpf_runs::{Verified, run_both};
use programs::PROGRAMS;
use std::alloc::Global;
use std::sync::Wait;
use std::test::Fail;
use std::thread::Threads;
use store::{Edit, Pin, Version};
use verifier::verify;

mod programs;

/// Eight vertices with edges, some of which lead back.
fn some_edges<R: Threads + Wait>(rt: &R, alloc: Global) -> Result<Pin, Fail> {
    let edits = [
        Edit::Insert(0, 1),
        Edit::Insert(0, 2),
        Edit::Insert(0, 7),
        Edit::Insert(1, 0),
        Edit::Insert(2, 5),
        Edit::Insert(5, 0),
        Edit::Insert(7, 7),
    ];
    pin_of(rt, alloc, 8, &edits)
}

/// The verified program of a line: its name, its record length and its code, with a bar between.
pub(crate) fn program_of(alloc: Global, line: &str) -> Result<Verified, Fail> {
    let (_, parts) = line.split_once('|').ok_or("no name")?;
    let (length, code) = parts.split_once('|').ok_or("no length")?;
    let Ok(length) = length.parse::<u16>() else {
        return Err(Fail::from("no number"));
    };
    let Ok(code) = hex::decode(alloc, code) else {
        return Err(Fail::from("no code"));
    };
    let Ok(image) = Image::new(length, code) else {
        return Err(Fail::from("no image"));
    };
    match verify(alloc, image) {
        Ok(program) => Ok(program),
        Err(_) => Err(Fail::from("refused")),
    }
}

/// A record of so many bytes: an edge between two vertices, and an argument drawn from its number.
fn record_of(alloc: Global, length: u16, number: u8) -> Result<Vec<u8>, Fail>
    requires { 16 ≤ length }
    ensures { IfOk result (λ bytes. count_of bytes.items ≡ length) }
{
    let mut record = vec![in alloc; number.wrapping_mul(29); usize::from(length)]?;
    let (source, target, place, degree) = (number % 8, number / 2 % 8, number % 3, number % 5);
    let edge = [
        source, 0, 0, 0, target, 0, 0, 0, place, 0, 0, 0, degree, 0, 0, 0,
    ];
    record[..16].copy_from_slice(&edge);
    Ok(record)
}

/// Whether both ways agree on a record of this number.
fn agree(alloc: Global, program: &Verified, version: &Version, number: u8) -> Result<bool, Fail> {
    let length = program.image().record_length();
    if length < 16 {
        return Err(Fail::from("a short record"));
    }
    let mut checked = record_of(alloc, length, number)?;
    let mut direct = Vec::from_slice(alloc, &checked)?;
    let (tested, exit) = run_both(program, &mut checked, &mut direct, version);
    Ok(tested == exit && checked.as_slice() == direct.as_slice())
}

/// On how many of 16 records both ways agree.
fn agreed(alloc: Global, program: &Verified, version: &Version) -> Result<u8, Fail> {
    let mut count = 0u8;
    for number in 0..16 {
        if agree(alloc, program, version, number)? {
            count = count.saturating_add(1);
        }
    }
    Ok(count)
}

/// The same of the program of a line.
fn agreed_of_line(alloc: Global, line: &str, version: &Version) -> Result<u8, Fail> {
    let program = program_of(alloc, line)?;
    agreed(alloc, &program, version)
}

/// The line of the first program of which both ways do not agree on all records.
fn first_that_differs(alloc: Global, version: &Version) -> Result<Option<&'static str>, Fail> {
    for line in PROGRAMS.lines() {
        if agreed_of_line(alloc, line, version)? != 16 {
            return Ok(Some(line));
        }
    }
    Ok(None)
}

#[test]
fn both_ways_agree(rt: HostRuntime) -> Result<(), Fail> {
    let pin = some_edges(&rt, rt.alloc())?;
    let told = first_that_differs(rt.alloc(), pin.version());
    assert_eq!(rt; told?, None);
    Ok(())
}

//! Programs, pins and columns under their names.

ghost use Rattle.std.specs.Prelude.{◌≡◌, ◌+◌, ◌<◌, ◌≤◌, ◌↔◌, ◌++◌, true, false, is_some, ℕ, List, length, get_or, take, drop, map, option_map, IfOk, IfErr};
ghost use Rattle.bpf_asm.specs.Lexing.{same_bytes};
ghost use Rattle.session_model.specs.Session.{KeptColumn, program_named, pin_named, column_named, columns_named, stored};
ghost use Rattle.session_model.specs.Responses.{numbers_or_zeros, with_numbers};
ghost use Rattle.session.specs.Kept.{kept_program, kept_pin, kept_column, program_of, past_of, numbers_in, each_now};

use std::alloc::{AllocError, Global};
use std::sync::Arc;
use store::Pin;
use verifier::Verified;

/// A program that was accepted, under its name.
pub struct NamedProgram {
    pub name: Vec<u8>,
    pub program: Arc<Verified>,
}

impl Drop for NamedProgram {
    // Written out, so that crates above prove a call here, and not the drop of each part.
    fn drop(self) {
        let NamedProgram {
            name: _name,
            program: _program,
        } = self;
    }
}

/// A version that was pinned, under its name.
pub struct NamedPin {
    pub name: Vec<u8>,
    pub pin: Pin,
}

impl Drop for NamedPin {
    // Written out, so that crates above prove a call here, and not the drop of each part.
    fn drop(self) {
        let NamedPin {
            name: _name,
            pin: _pin,
        } = self;
    }
}

/// A column under its name: a number for each vertex.
pub struct NamedColumn {
    pub name: Vec<u8>,
    pub numbers: Vec<u64>,
}

impl Drop for NamedColumn {
    // Written out, so that crates above prove a call here, and not the drop of each part.
    fn drop(self) {
        let NamedColumn {
            name: _name,
            numbers: _numbers,
        } = self;
    }
}

/// Whether two names are the same.
fn is_same(a: &[u8], b: &[u8]) -> bool
    ensures { result ≡ same_bytes a.now b.now }
{
    a == b
}

/// The program of this name.
pub(crate) fn find_program<'a>(
    programs: &'a [NamedProgram],
    name: &[u8],
) -> Option<&'a Arc<Verified>>
    ensures { program_of result ≡ program_named name.now (map kept_program programs.now) }
{
    for kept in programs {
        if is_same(&kept.name, name) {
            return Some(&kept.program);
        }
    }
    None
}

/// The pin of this name.
pub(crate) fn find_pin<'a>(pins: &'a [NamedPin], name: &[u8]) -> Option<&'a Pin>
    ensures { past_of result ≡ pin_named name.now (map kept_pin pins.now) }
{
    for kept in pins {
        if is_same(&kept.name, name) {
            return Some(&kept.pin);
        }
    }
    None
}

/// The numbers of the column of this name.
pub(crate) fn find_column<'a>(columns: &'a [NamedColumn], name: &[u8]) -> Option<&'a [u64]>
    ensures { numbers_in result ≡ column_named name.now (map kept_column columns.now) }
{
    for kept in columns {
        if is_same(&kept.name, name) {
            return Some(kept.numbers.as_slice());
        }
    }
    None
}

/// The numbers of the columns of these names, where there are all.
pub(crate) fn find_columns<'a>(
    alloc: Global,
    columns: &'a [NamedColumn],
    names: &[&[u8]],
) -> Result<Option<Vec<&'a [u64]>>, AllocError>
    ensures { IfOk result (λ found. option_map (λ v. each_now v.items) found
        ≡ columns_named (each_now names.now) (map kept_column columns.now)) }
{
    let mut found = Vec::with_capacity(alloc, names.len())?;
    for name in names {
        let Some(numbers) = find_column(columns, name) else {
            return Ok(None);
        };
        found.push(numbers)?;
    }
    Ok(Some(found))
}

/// The place of the column of a name, or the end.
fn place_of(columns: &[NamedColumn], name: &[u8]) -> usize
    ensures place { (numbers : List ℕ) → stored name.now numbers (map kept_column columns.now)
        ≡ map kept_column (take result columns.now)
        ++ stored name.now numbers (map kept_column (drop result columns.now)) }
    ensures same { (c : KeptColumn) → result < length columns.now → c ≡ get_or (map kept_column columns.now) result c
        → same_bytes c.name name.now ≡ true }
    ensures first { column_named name.now (map kept_column columns.now)
        ≡ column_named name.now (map kept_column (drop result columns.now)) }
    ensures within { result ≤ length columns.now }
{
    for at in 0..columns.len() {
        if is_same(&columns[at].name, name) {
            return at;
        }
    }
    columns.len()
}

/// Whether a column has so many numbers from a place on.
fn has_span(column: &[u64], first: usize, count: usize) -> bool
    ensures { (result ≡ true) ↔ (first + count ≤ length column.now) }
{
    count <= column.len() && first <= column.len() - count
}

/// Writes numbers over those from a place on.
fn write_over(column: &mut [u64], first: usize, numbers: &[u64])
    requires { first + length numbers.now ≤ length column.old }
    ensures set { column.new ≡ with_numbers first numbers.now column.old }
    ensures long { length column.new ≡ length column.old }
{
    column[first..first + numbers.len()].copy_from_slice(numbers);
}

/// Sets numbers of the column of a name from a vertex on where they stand, if there is one and it has all of these.
pub(crate) fn set_in_place(
    columns: &mut Vec<NamedColumn>,
    name: &[u8],
    first: usize,
    numbers: &[u64],
) -> bool
    ensures set { result ≡ true → (vertices : ℕ) → map kept_column columns.new.items ≡ stored name.now
        (with_numbers first numbers.now (numbers_or_zeros vertices (column_named name.now
        (map kept_column columns.old.items))))
        (map kept_column columns.old.items) }
    ensures there { result ≡ true → is_some (column_named name.now (map kept_column columns.old.items)) ≡ true }
    ensures kept { result ≡ false → columns.new ≡ columns.old }
{
    let at = place_of(columns, name);
    if at >= columns.len() || !has_span(&columns[at].numbers, first, numbers.len()) {
        return false;
    }
    write_over(&mut columns[at].numbers, first, numbers);
    true
}

/// Gives the column of a name these numbers. It is made if there is none.
pub(crate) fn store_column(
    alloc: Global,
    columns: &mut Vec<NamedColumn>,
    name: &[u8],
    numbers: Vec<u64>,
) -> Result<(), AllocError>
    ensures stored { IfOk result (λ _. map kept_column columns.new.items
        ≡ stored name.now numbers.items (map kept_column columns.old.items)) }
    ensures kept { IfErr result (λ _. columns.new.items ≡ columns.old.items) }
{
    let at = place_of(columns, name);
    if at < columns.len() {
        columns[at].numbers = numbers;
        return Ok(());
    }
    let name = Vec::from_slice(alloc, name)?;
    columns.push(NamedColumn { name, numbers })?;
    Ok(())
}

//! The lines that are written.

ghost use Rattle.std.specs.Prelude.{◌≡◌, ◌++◌, codes, OnOk};
ghost use Rattle.std.specs.Fmt.{decimal};
ghost use Rattle.std.specs.List.{flat_map};
ghost use Rattle.script_model.specs.Texts.{
  newline,
  graph_text,
  batch_text,
  program_text,
  refused_text,
  image_text,
  assembler_text,
  pin_text,
  mapped_text,
  run_text,
  row_text,
  home_word,
  home_text,
  rebase_text,
  list_text,
  edge_text,
  column_text,
  value_text,
  pull_text,
  way_word,
  counted_word,
  counts_text,
  feed_text,
  fault_text,
};

use crate::line::Line;
use bpf_asm::AssembleError;
use bpf_image::ImageError;
use itoa::Buffer;
use map_model::{ListedEdge, Row};
use past_model::Home;
use script_model::LineFault;
use session_model::Way;
use std::alloc::AllocError;
use verifier::Refusal;

/// Writes bytes at the end of a text. It is inlined, so that a label costs no call.
#[inline(always)]
pub(crate) fn put(text: &mut Vec<u8>, bytes: &[u8]) -> Result<(), AllocError>
    ensures { OnOk result (text.new.items ≡ text.old.items ++ bytes.now) }
{
    text.extend_from_slice(bytes)?;
    Ok(())
}

/// Writes a number in decimal digits.
fn put_number(text: &mut Vec<u8>, number: u64) -> Result<(), AllocError>
    ensures { OnOk result (text.new.items ≡ text.old.items ++ decimal number) }
{
    let mut buffer = Buffer::new();
    put(text, buffer.format(number).as_bytes())
}

/// Writes a label and then a number.
#[inline(always)]
fn put_field(text: &mut Vec<u8>, label: &[u8], number: u64) -> Result<(), AllocError>
    ensures { OnOk result (text.new.items ≡ text.old.items ++ (label.now ++ decimal number)) }
{
    put(text, label)?;
    put_number(text, number)
}

/// Writes a label and then a name.
fn put_name(text: &mut Vec<u8>, label: &[u8], name: &[u8]) -> Result<(), AllocError>
    ensures { OnOk result (text.new.items ≡ text.old.items ++ (label.now ++ name.now)) }
{
    put(text, label)?;
    put(text, name)
}

/// The line of a graph that was made.
pub(crate) fn put_graph(text: &mut Vec<u8>, vertices: u64) -> Result<(), AllocError>
    ensures { OnOk result (text.new.items ≡ text.old.items ++ graph_text vertices) }
{
    put_field(text, b"graph ", vertices)?;
    put(text, b"\n")
}

/// What a batch did, at the end of its line.
fn put_changes(text: &mut Vec<u8>, added: u64, removed: u64) -> Result<(), AllocError>
    ensures { OnOk result (text.new.items ≡ text.old.items
        ++ (codes " added " ++ (decimal added ++ (codes " removed " ++ (decimal removed ++ newline))))) }
{
    put_field(text, b" added ", added)?;
    put_field(text, b" removed ", removed)?;
    put(text, b"\n")
}

/// The letter of a feed.
fn feed_letter(feed: u8) -> &'static [u8]
    ensures { result.now ≡ feed_text feed }
{
    match feed {
        0 => b"A",
        1 => b"B",
        2 => b"C",
        _ => b"D",
    }
}

/// The line of a batch that was published.
pub(crate) fn put_batch(
    text: &mut Vec<u8>,
    feed: u8,
    number: u64,
    added: u64,
    removed: u64,
) -> Result<(), AllocError>
    ensures { OnOk result (text.new.items ≡ text.old.items ++ batch_text feed number added removed) }
{
    put_name(text, b"batch ", feed_letter(feed))?;
    put_field(text, b" version ", number)?;
    put_changes(text, added, removed)?;
    Ok(())
}

/// The line of a program that was accepted.
pub(crate) fn put_program(
    text: &mut Vec<u8>,
    name: &[u8],
    bound: u64,
    frames: u64,
) -> Result<(), AllocError>
    ensures { OnOk result (text.new.items ≡ text.old.items ++ program_text name.now bound frames) }
{
    put_name(text, b"program ", name)?;
    put_field(text, b" bound ", bound)?;
    put_field(text, b" frames ", frames)?;
    put(text, b"\n")
}

/// The line of a program that was refused.
pub(crate) fn put_refused(
    text: &mut Vec<u8>,
    name: &[u8],
    refusal: Refusal,
) -> Result<(), AllocError>
    ensures { OnOk result (text.new.items ≡ text.old.items ++ refused_text name.now refusal) }
{
    put_name(text, b"refused ", name)?;
    put_field(text, b" cause ", refusal.cause as u64)?;
    put_field(text, b" pc ", refusal.pc as u64)?;
    put(text, b"\n")
}

/// The line of code or bytes that no image has.
pub(crate) fn put_image(
    text: &mut Vec<u8>,
    name: &[u8],
    error: ImageError,
) -> Result<(), AllocError>
    ensures { OnOk result (text.new.items ≡ text.old.items ++ image_text name.now error) }
{
    put_name(text, b"image ", name)?;
    put_field(text, b" error ", error as u64)?;
    put(text, b"\n")
}

/// The line of a program whose text means no code.
pub(crate) fn put_assembler(
    text: &mut Vec<u8>,
    name: &[u8],
    error: AssembleError,
) -> Result<(), AllocError>
    ensures { OnOk result (text.new.items ≡ text.old.items ++ assembler_text name.now error) }
{
    put_name(text, b"assembler ", name)?;
    put_field(text, b" error ", error.cause as u64)?;
    put_field(text, b" line ", error.line as u64)?;
    put(text, b"\n")
}

/// The line of a pin.
pub(crate) fn put_pin(
    text: &mut Vec<u8>,
    name: &[u8],
    number: u64,
    edges: u64,
) -> Result<(), AllocError>
    ensures { OnOk result (text.new.items ≡ text.old.items ++ pin_text name.now number edges) }
{
    put_name(text, b"pin ", name)?;
    put_field(text, b" version ", number)?;
    put_field(text, b" edges ", edges)?;
    put(text, b"\n")
}

/// The epoch that began, at the end of the line of a rebase.
fn put_epoch(text: &mut Vec<u8>, epoch: u64, edges: u64) -> Result<(), AllocError>
    ensures { OnOk result (text.new.items ≡ text.old.items
        ++ (codes " epoch " ++ (decimal epoch ++ (codes " edges " ++ (decimal edges ++ newline))))) }
{
    put_field(text, b" epoch ", epoch)?;
    put_field(text, b" edges ", edges)?;
    put(text, b"\n")
}

/// The line of a rebase.
pub(crate) fn put_rebase(text: &mut Vec<u8>, epoch: u64, edges: u64) -> Result<(), AllocError>
    ensures { OnOk result (text.new.items ≡ text.old.items ++ rebase_text epoch edges) }
{
    put(text, b"rebase")?;
    put_epoch(text, epoch, edges)
}

/// A program, the pin whose edges it was run on, and what that gave: a line after its first word.
fn put_mapped(
    text: &mut Vec<u8>,
    program: &[u8],
    pin: &[u8],
    edges: u64,
    total: u64,
) -> Result<(), AllocError>
    ensures { OnOk result (text.new.items ≡ text.old.items ++ mapped_text program.now pin.now edges total) }
{
    put(text, program)?;
    put_name(text, b" ", pin)?;
    put_field(text, b" edges ", edges)?;
    put_field(text, b" total ", total)
}

/// The first line of a run.
pub(crate) fn put_run(
    text: &mut Vec<u8>,
    program: &[u8],
    pin: &[u8],
    edges: u64,
    total: u64,
) -> Result<(), AllocError>
    ensures { OnOk result (text.new.items ≡ text.old.items ++ run_text program.now pin.now edges total) }
{
    put(text, b"run ")?;
    put_mapped(text, program, pin, edges, total)?;
    put(text, b"\n")
}

/// The line of a vertex in a run.
fn put_row(text: &mut Vec<u8>, row: Row) -> Result<(), AllocError>
    ensures { OnOk result (text.new.items ≡ text.old.items ++ row_text row) }
{
    let mut line = Line::end();
    line.put_number(row.value);
    line.put_word(b" ");
    line.put_number(u64::from(row.vertex));
    line.put_word(b"row ");
    put(text, line.as_slice())
}

/// The lines of the vertices that have a neighbour.
pub(crate) fn put_rows(text: &mut Vec<u8>, rows: &[Row]) -> Result<(), AllocError>
    ensures { OnOk result (text.new.items ≡ text.old.items ++ flat_map row_text rows.now) }
{
    for row in rows {
        put_row(text, *row)?;
    }
    Ok(())
}

/// The word for a home.
fn home_name(home: Home) -> &'static [u8]
    ensures { result.now ≡ home_word home }
{
    match home {
        Home::Block => b"block",
        Home::Gapped => b"gapped",
        Home::Tree => b"tree",
    }
}

/// The line of a vertex's home.
pub(crate) fn put_home(
    text: &mut Vec<u8>,
    vertex: u64,
    home: Home,
    degree: u64,
) -> Result<(), AllocError>
    ensures { OnOk result (text.new.items ≡ text.old.items ++ home_text vertex home degree) }
{
    put_field(text, b"home ", vertex)?;
    put_name(text, b" ", home_name(home))?;
    put_field(text, b" degree ", degree)?;
    put(text, b"\n")
}

/// The first line of a list.
pub(crate) fn put_list(
    text: &mut Vec<u8>,
    program: &[u8],
    pin: &[u8],
    edges: u64,
) -> Result<(), AllocError>
    ensures { OnOk result (text.new.items ≡ text.old.items ++ list_text program.now pin.now edges) }
{
    put_name(text, b"list ", program)?;
    put_name(text, b" ", pin)?;
    put_field(text, b" edges ", edges)?;
    put(text, b"\n")
}

/// The line of an edge in a list.
fn put_edge(text: &mut Vec<u8>, edge: ListedEdge) -> Result<(), AllocError>
    ensures { OnOk result (text.new.items ≡ text.old.items ++ edge_text edge) }
{
    let mut line = Line::end();
    line.put_number(edge.number);
    line.put_word(b" ");
    line.put_number(u64::from(edge.target));
    line.put_word(b" ");
    line.put_number(u64::from(edge.source));
    line.put_word(b"edge ");
    put(text, line.as_slice())
}

/// The lines of some edges of a list.
pub(crate) fn put_edges(text: &mut Vec<u8>, edges: &[ListedEdge]) -> Result<(), AllocError>
    ensures { OnOk result (text.new.items ≡ text.old.items ++ flat_map edge_text edges.now) }
{
    for edge in edges {
        put_edge(text, *edge)?;
    }
    Ok(())
}

/// The line of a column whose numbers are set.
pub(crate) fn put_column(text: &mut Vec<u8>, name: &[u8], count: u64) -> Result<(), AllocError>
    ensures { OnOk result (text.new.items ≡ text.old.items ++ column_text name.now count) }
{
    put_name(text, b"column ", name)?;
    put_field(text, b" set ", count)?;
    put(text, b"\n")
}

/// The line of a vertex's number.
fn put_value(text: &mut Vec<u8>, row: Row) -> Result<(), AllocError>
    ensures { OnOk result (text.new.items ≡ text.old.items ++ value_text row) }
{
    put_field(text, b"value ", u64::from(row.vertex))?;
    put_field(text, b" ", row.value)?;
    put(text, b"\n")
}

/// The lines of some vertices' numbers.
pub(crate) fn put_values(text: &mut Vec<u8>, rows: &[Row]) -> Result<(), AllocError>
    ensures { OnOk result (text.new.items ≡ text.old.items ++ flat_map value_text rows.now) }
{
    for row in rows {
        put_value(text, *row)?;
    }
    Ok(())
}

/// The first line of a pull.
pub(crate) fn put_pull(
    text: &mut Vec<u8>,
    program: &[u8],
    pin: &[u8],
    edges: u64,
    total: u64,
) -> Result<(), AllocError>
    ensures { OnOk result (text.new.items ≡ text.old.items ++ pull_text program.now pin.now edges total) }
{
    put(text, b"pull ")?;
    put_mapped(text, program, pin, edges, total)?;
    put(text, b"\n")
}

/// The first word of a command that writes a column.
fn way_name(way: Way) -> &'static [u8]
    ensures { result.now ≡ way_word way }
{
    match way {
        Way::Pull => b"pull ",
        Way::Push => b"push ",
        Way::Each => b"each ",
    }
}

/// What a command that writes a column was run for.
fn counted_name(way: Way) -> &'static [u8]
    ensures { result.now ≡ counted_word way }
{
    match way {
        Way::Pull | Way::Push => b" edges ",
        Way::Each => b" vertices ",
    }
}

/// The line of a column that was written, up to its pin.
pub(crate) fn put_way(
    text: &mut Vec<u8>,
    way: Way,
    program: &[u8],
    pin: &[u8],
) -> Result<(), AllocError>
    ensures { OnOk result (text.new.items ≡ text.old.items
        ++ (way_word way ++ (program.now ++ (codes " " ++ pin.now)))) }
{
    put_name(text, way_name(way), program)?;
    put_name(text, b" ", pin)
}

/// What came of a column that was written, at the end of its line.
pub(crate) fn put_counts(
    text: &mut Vec<u8>,
    way: Way,
    count: u64,
    total: u64,
    changed: u64,
) -> Result<(), AllocError>
    ensures { OnOk result (text.new.items ≡ text.old.items ++ counts_text way count total changed) }
{
    put_field(text, counted_name(way), count)?;
    put_field(text, b" total ", total)?;
    put_field(text, b" changed ", changed)?;
    put(text, b"\n")
}

/// The line of a fault, the last of a script.
pub(crate) fn put_fault(text: &mut Vec<u8>, fault: LineFault, line: u64) -> Result<(), AllocError>
    ensures { OnOk result (text.new.items ≡ text.old.items ++ fault_text fault line) }
{
    put_field(text, b"fault ", fault.number())?;
    put_field(text, b" line ", line)?;
    put(text, b"\n")
}

//! The listing: each instruction, and what is known before it.
ghost use Rattle.std.specs.Prelude.{◌≡◌, ◌++◌, OnOk, string_bytes, option_map, slice_get};
ghost use Rattle.bpf_image.specs.Program.{units};
ghost use Rattle.verifier.specs.Tables.{state_at};
ghost use Rattle.explanation.specs.Pieces.{pieces_to};
ghost use Rattle.explanation.specs.Explanation.{
  pc_text,
  state_line,
  passage_line,
  known_lines,
  call_line,
  call_lines,
  broken_state,
};
ghost use Rattle.explanation.specs.Starts.{IsAt};

use crate::cursor::Cursor;
use crate::instructions::put_instruction;
use crate::judgement::Judgement;
use crate::labels::{Label, words_of_label};
use crate::source::SourceLine;
use crate::values::{put, put_field, put_state};
use abstract_state::AbstractState;
use bpf_image::Image;
use std::alloc::AllocError;
use verifier::KnownPassage;

/// What is listed: a program, the lines that it was assembled from, what the verifier answers, and what is known.
#[derive(Clone, Copy)]
pub(crate) struct Listing<'a> {
    pub image: &'a Image,
    pub source: &'a [SourceLine<'a>],
    pub judgement: Judgement,
    pub passages: &'a [KnownPassage],
}

/// What is known at a pc, if it is walked.
fn known_at(states: &[Option<AbstractState>], pc: usize) -> Option<&AbstractState>
    ensures { option_map (λ s. s.now) result ≡ state_at states.now pc }
{
    if pc >= states.len() {
        return None;
    }
    match &states[pc] {
        None => None,
        Some(state) => Some(state),
    }
}

/// The passage of a number, if there is one.
fn passage_at(passages: &[KnownPassage], k: usize) -> Option<&KnownPassage>
    ensures { option_map (λ t. t.now) result ≡ slice_get passages.now k }
{
    passages.get(k)
}

/// What is known where the last passage ends.
pub(crate) fn known_at_end(passages: &[KnownPassage]) -> Option<&AbstractState>
    ensures { option_map (λ s. s.now) result ≡ broken_state passages.now }
{
    match passage_at(passages, passages.len().saturating_sub(1)) {
        None => None,
        Some(passage) => known_at(&passage.states, passage.last),
    }
}

/// Writes what is known at a pc of a passage, on a line of its own.
fn put_known_line(
    text: &mut String,
    begins: usize,
    state: Option<&AbstractState>,
) -> Result<(), AllocError>
    ensures { OnOk result (string_bytes text.new
        ≡ string_bytes text.old ++ state_line begins (option_map (λ s. s.now) state.entry)) }
{
    match state {
        None if begins == 0 => put(text, "    no run comes here\n"),
        None => put(text, "    this call does not come here\n"),
        Some(state) => put_state(text, state),
    }
}

/// Writes what is known at a pc in a passage, if it comes there.
fn put_passage_line(
    text: &mut String,
    passage: Option<&KnownPassage>,
    pc: usize,
) -> Result<(), AllocError>
    ensures { OnOk result (string_bytes text.new
        ≡ string_bytes text.old ++ passage_line pc (option_map (λ t. t.now) passage.entry)) }
{
    match passage {
        Some(passage) if passage.entry <= pc && pc <= passage.last => {
            put_known_line(text, passage.entry, known_at(&passage.states, pc))
        }
        _ => Ok(()),
    }
}

/// Writes what is known at a pc in each passage that comes there.
#[tactic(auto, using(crate::proofs::Written::pieces_none, crate::proofs::Written::written_more))]
fn put_known_lines(
    text: &mut String,
    passages: &[KnownPassage],
    pc: usize,
) -> Result<(), AllocError>
    ensures { OnOk result (string_bytes text.new ≡ string_bytes text.old ++ known_lines passages.now pc) }
{
    for k in 0..passages.len() {
        put_passage_line(text, passage_at(passages, k), pc)?;
    }
    Ok(())
}

/// Writes from where a passage is called, if it begins at a pc: `before` is the one that calls it.
fn put_call_line(
    text: &mut String,
    before: Option<&KnownPassage>,
    passage: Option<&KnownPassage>,
    pc: usize,
) -> Result<(), AllocError>
    ensures { OnOk result (string_bytes text.new ≡ string_bytes text.old
        ++ call_line pc (option_map (λ t. t.now) before.entry) (option_map (λ t. t.now) passage.entry)) }
{
    match (before, passage) {
        (Some(before), Some(passage)) if passage.entry == pc => {
            put_field(text, words_of_label(Label::Called), before.last as u64)?;
            put(text, "\n")
        }
        _ => Ok(()),
    }
}

/// Writes from where the function is called that begins at a pc, if a passage of it is listed.
#[tactic(auto, using(crate::proofs::Written::pieces_none, crate::proofs::Written::written_more))]
fn put_call_lines(text: &mut String, passages: &[KnownPassage], pc: usize) -> Result<(), AllocError>
    ensures { OnOk result (string_bytes text.new ≡ string_bytes text.old ++ call_lines passages.now pc) }
{
    for k in 0..passages.len() {
        put_call_line(
            text,
            passage_at(passages, k),
            passage_at(passages, k + 1),
            pc,
        )?;
    }
    Ok(())
}

/// Writes the instruction that starts at a pc, and what is known before it; nothing where none starts.
#[tactic(auto, using(crate::proofs::Starts::starts_here, crate::proofs::Starts::starts_not))]
fn put_pc(
    text: &mut String,
    listing: &Listing<'_>,
    pc: usize,
    cursor: Cursor,
) -> Result<(), AllocError>
    requires { IsAt listing.now.image.now pc cursor }
    ensures { OnOk result (string_bytes text.new ≡ string_bytes text.old
        ++ pc_text listing.now.image.now listing.now.source.now listing.now.judgement listing.now.passages.now pc) }
{
    if cursor.next != pc {
        return Ok(());
    }
    let is_listed = listing.judgement.lists_states();
    if is_listed {
        put_call_lines(text, listing.passages, pc)?;
    }
    put_instruction(text, listing.image, listing.source, pc, cursor.ordinal)?;
    if is_listed {
        put_known_lines(text, listing.passages, pc)?;
    }
    Ok(())
}

/// Writes all instructions, with what is known before each.
#[tactic(auto, using(crate::proofs::Written::pieces_none, crate::proofs::Written::written_more, crate::proofs::Starts::at_first))]
pub(crate) fn put_listing(text: &mut String, listing: &Listing<'_>) -> Result<(), AllocError>
    ensures { OnOk result (string_bytes text.new ≡ string_bytes text.old
        ++ pieces_to (pc_text listing.now.image.now listing.now.source.now listing.now.judgement
        listing.now.passages.now)
        (units listing.now.image.now)) }
{
    let mut cursor = Cursor::first();
    for pc in 0..listing.image.code().len() / 8 {
        put_pc(text, listing, pc, cursor)?;
        cursor = cursor.past(listing.image, pc);
    }
    Ok(())
}

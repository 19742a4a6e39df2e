//! What is known at the pcs of a program, for a person who wants to see why it is refused.
ghost use Rattle.std.specs.Prelude.{◌≡◌, ◌<◌, ◌≤◌, ◌+◌, ◌++◌, List, false, None, IfOk, MatchOption};
ghost use Rattle.bpf_image.specs.Program.{units};
ghost use Rattle.abstract_state.specs.States.{most_callers};
ghost use Rattle.verifier.specs.declared.known.KnownPassage.{KnownPassage as Listed};
ghost use Rattle.verifier.specs.Listing.{listing_of};
ghost use Rattle.verifier.specs.Equations.{passage_at, calls_of, first_refusal};
ghost use Rattle.verifier.specs.Verdict.{first_fault, decoding_fault, flow_fault, pairs_fault};
ghost use Rattle.verifier.specs.Tables.{HasEnds, passage_of};
ghost use Rattle.verifier.specs.Known.{is_walkable, IsKnownOf, IsBrokenBy, IsDoneAt, Lists, IsKnown};

use crate::flow::find_flow_fault;
use crate::functions::{find_ends, has_calls};
use crate::layout::Layout;
use crate::listing::list;
use crate::passage::{Passage, Point};
use crate::refusal::Refusal;
use crate::states::{arrive, no_states};
use crate::walking::{go_on_after, go_through, visit};
use crate::weights::check_pairs;
use abstract_state::AbstractState;
use bpf_image::Image;
use bpf_isa::Instruction;
use bpf_model::Cause;
use std::alloc::{AllocError, Global};

/// A function as it is gone through once, and what is known at its pcs.
#[derive(Drop)]
pub struct KnownPassage {
    /// The pc at which the function begins.
    pub entry: usize,
    /// The last pc that was gone over: the one that breaks a rule, or whose call does, and else the function's last.
    pub last: usize,
    /// What is known before each unit from `entry` to `last`: nothing if no walked way of this call comes there, and then no run
    /// of it does.
    pub states: Vec<Option<AbstractState>>,
}

/// What starts at each pc, and where its function ends.
#[derive(Drop)]
struct LaidOut {
    listing: Vec<Option<Instruction>>,
    ends: Vec<u16>,
}

/// What starts at each pc and where its function ends, if the code decodes and flows, and a walk goes through few enough
/// instructions.
#[tactic(auto, using(crate::proofs::Verdicts::few_pairs_pass))]
fn lay_out(alloc: Global, image: &Image) -> Result<Option<LaidOut>, AllocError>
    ensures { IfOk result (λ found. MatchOption found (is_walkable image.now ≡ false)
        (λ layout. (layout.listing.items ≡ listing_of image.now (units image.now))
        × ((first_fault (decoding_fault image.now) (units image.now) ≡ None)
        × ((first_fault (flow_fault image.now) (units image.now) ≡ None)
        × ((pairs_fault image.now ≡ None) × HasEnds image.now layout.ends.items))))) }
{
    let listing = match list(alloc, image) {
        Ok(listing) => listing,
        Err(refusal) => {
            refusal.rule_or_memory()?;
            return Ok(None);
        }
    };
    let calls = has_calls(image, &listing);
    let Ok(ends) = find_ends(alloc, image, &listing, calls) else {
        return Err(AllocError);
    };
    if find_flow_fault(image, &listing, &ends).is_some() {
        return Ok(None);
    }
    match check_pairs(alloc, image, &listing, &ends, calls) {
        Ok(()) => Ok(Some(LaidOut { listing, ends })),
        Err(refusal) => {
            refusal.rule_or_memory()?;
            Ok(None)
        }
    }
}

/// A copy of what is known somewhere.
fn copy_of(
    alloc: Global,
    state: &Option<AbstractState>,
) -> Result<Option<AbstractState>, AllocError>
    ensures { IfOk result (λ copy. copy ≡ state.now) }
{
    match state {
        None => Ok(None),
        Some(state) => Ok(Some(state.copy(alloc)?)),
    }
}

/// Goes through a passage as `go_through` does, and keeps what is known at each pc until a rule is broken. Where a call
/// breaks it, it answers where the called function begins, and what is known there.
fn go_over(
    alloc: Global,
    layout: &Layout<'_>,
    passage: Passage,
) -> Result<(KnownPassage, Option<(usize, AbstractState)>), AllocError>
    requires inside { passage.entry < units layout.now.image.now }
    requires frame { passage.frame ≤ most_callers }
    ensures known { IfOk result (λ listed. IsKnownOf layout.now.image.now (passage_of passage) listed.0) }
    ensures stopped { IfOk result (λ listed. let p = layout.now.image.now in let v = passage_of passage in
        MatchOption listed.1 (IsDoneAt p v listed.0.last (first_refusal p (calls_of p v) v (units p)))
        (λ call. IsBrokenBy p v listed.0.last (passage_at call.0 (passage.frame + 1) call.1))) }
{
    let Passage {
        entry,
        frame,
        known,
    } = passage;
    let units = layout.image.code().len() / 8;
    let mut kept = no_states(alloc, units)?;
    let mut states = no_states(alloc, units)?;
    let mut exits = None;
    arrive(&mut states, entry as i64, known);
    let end = usize::from(layout.ends[entry]);
    for pc in entry..end {
        kept[pc] = copy_of(alloc, &states[pc])?;
        let here = Point { pc, frame };
        let opened = match visit(alloc, layout, &mut states, &mut exits, here) {
            Err(refusal) => {
                refusal.rule_or_memory()?;
                return Ok((
                    KnownPassage {
                        entry,
                        last: pc,
                        states: kept,
                    },
                    None,
                ));
            }
            Ok(opened) => opened,
        };
        if let Some((begins, known)) = opened {
            let again = known.copy(alloc)?;
            let callee = Passage {
                entry: begins,
                frame: frame + 1,
                known,
            };
            match go_through(alloc, layout, &mut states, callee) {
                Err(refusal) => {
                    refusal.rule_or_memory()?;
                    return Ok((
                        KnownPassage {
                            entry,
                            last: pc,
                            states: kept,
                        },
                        Some((begins, again)),
                    ));
                }
                Ok(left) => go_on_after(&mut states, pc, left),
            }
        }
    }
    Ok((
        KnownPassage {
            entry,
            last: end - 1,
            states: kept,
        },
        None,
    ))
}

/// Lists a passage, and those that are open within it where a rule is broken.
fn list_passages(
    alloc: Global,
    layout: &Layout<'_>,
    passages: &mut Vec<KnownPassage>,
    passage: Passage,
) -> Result<(), AllocError>
    requires inside { passage.entry < units layout.now.image.now }
    requires frame { passage.frame ≤ most_callers }
    ensures { IfOk result (λ _. let p = layout.now.image.now in let v = passage_of passage in
        (listed : List Listed) × (passages.new.items ≡ passages.old.items ++ listed)
        × Lists p v (first_refusal p (calls_of p v) v (units p)) listed) }
{
    let frame = passage.frame;
    let (over, called) = go_over(alloc, layout, passage)?;
    passages.push(over)?;
    match called {
        None => Ok(()),
        Some((begins, known)) => {
            let callee = Passage {
                entry: begins,
                frame: frame + 1,
                known,
            };
            list_passages(alloc, layout, passages, callee)
        }
    }
}

/// What is known before each unit of a program, of every run that comes there by the calls that are listed. It is for a
/// person who asks why a program is refused, so a program may break rules: nothing is listed where its code does not decode
/// or flow, or where too many instructions would be gone through. Else the main passage is listed, from the first pc on, and
/// after it each call of a function that is open where the first rule is broken: it stands at the last pc of the passage
/// before, and the broken rule at the last pc of the last passage. Rules are those of single instructions: a program that is
/// refused for its frames or its bound is listed as if these did not count.
pub fn known_states(alloc: Global, image: &Image) -> Result<Vec<KnownPassage>, AllocError>
    ensures { IfOk result (λ listed. IsKnown image.now listed.items) }
{
    let mut passages = Vec::new(alloc);
    if let Some(found) = lay_out(alloc, image)? {
        let layout = Layout {
            image,
            listing: &found.listing,
            ends: &found.ends,
        };
        let known = AbstractState::entry(alloc, image.lengths())?;
        let main = Passage {
            entry: 0,
            frame: 0,
            known,
        };
        list_passages(alloc, &layout, &mut passages, main)?;
    }
    Ok(passages)
}

//! What the two calls promise together with the verifier's, and of a small text. Each function only makes public calls,
//! and is proved from their contracts alone.
ghost use Rattle.std.specs.Prelude.{◌≡◌, ◌∷◌, [], map, codes, string_bytes, IfOk};
ghost use Rattle.verifier.specs.Walks.{longest, IsDeepest};
ghost use Rattle.explanation.specs.Explanation.{Explains};
ghost use Rattle.explanation.specs.SourceLines.{as_numbered};

use crate::explaining::{Explanation, explain};
use crate::judgement::Judgement;
use crate::source::{SourceLine, source_lines};
use bpf_image::Image;
use std::alloc::{AllocError, Global};
use verifier::Verified;

/// An accepted program is explained with the bound and the frames that the verifier answers.
pub fn bound_and_frames_are_the_verifiers(
    alloc: Global,
    image: Image,
    accepted: &Verified,
) -> Result<(Explanation, u32, u8), AllocError>
    requires { accepted.now ≡ image }
    ensures explained { IfOk result (λ found. Explains image [] (string_bytes found.0.text) found.0.judgement) }
    ensures same { IfOk result (λ found. found.0.judgement ≡ Judgement.Accepted found.1 found.2) }
    ensures bound { IfOk result (λ found. found.1 ≡ longest accepted.now) }
    ensures frames { IfOk result (λ found. IsDeepest accepted.now 0 found.2) }
{
    let explained = explain(alloc, image, &[])?;
    Ok((explained, accepted.bound(), accepted.frames()))
}

/// Lines are counted from 1, those of labels too, and a comment is left out.
pub fn statements_have_their_lines(alloc: Global) -> Result<Vec<SourceLine<'static>>, AllocError>
    ensures { IfOk result (λ lines. map as_numbered lines.items ≡ record { number = 2; said = codes "exit" } ∷ []) }
{
    source_lines(alloc, "end:\nexit ; here")
}

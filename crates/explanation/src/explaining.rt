//! The whole text.
ghost use Rattle.std.specs.Prelude.{◌≡◌, ◌++◌, IfOk, OnOk, string_bytes};
ghost use Rattle.bpf_image.specs.Program.{units};
ghost use Rattle.explanation.specs.Judging.{StandsInside};
ghost use Rattle.explanation.specs.Explanation.{head_text, explanation_text, Explains};

use crate::ending::put_end;
use crate::judgement::Judgement;
use crate::labels::{Label, words_of_label};
use crate::listing::{Listing, put_listing};
use crate::source::SourceLine;
use crate::values::{put, put_field};
use bpf_image::Image;
use std::alloc::{AllocError, Global};
use verifier::{KnownPassage, known_states, verify};

/// How many units a program has.
fn units_of(image: &Image) -> u64
    ensures { result ≡ units image.now }
{
    (image.code().len() / 8) as u64
}

/// Writes how long a program is.
fn put_head(text: &mut String, image: &Image) -> Result<(), AllocError>
    ensures { OnOk result (string_bytes text.new ≡ string_bytes text.old ++ head_text image.now) }
{
    put_field(text, words_of_label(Label::Program), units_of(image))?;
    put_field(
        text,
        words_of_label(Label::Records),
        u64::from(image.record_length()),
    )?;
    put(text, words_of_label(Label::Bytes))
}

/// The text of what is known of a program and of what the verifier answers.
fn write_all(
    alloc: Global,
    image: &Image,
    source: &[SourceLine<'_>],
    passages: &[KnownPassage],
    judgement: Judgement,
) -> Result<String, AllocError>
    requires { StandsInside (units image.now) judgement }
    ensures { IfOk result (λ text. string_bytes text
        ≡ explanation_text image.now source.now passages.now judgement) }
{
    let mut text = String::new(alloc);
    put_head(&mut text, image)?;
    let listing = Listing {
        image,
        source,
        judgement,
        passages,
    };
    put_listing(&mut text, &listing)?;
    put_end(&mut text, image, source, passages, judgement)?;
    Ok(text)
}

/// The explanation of a program.
#[derive(Debug, Drop)]
pub struct Explanation {
    /// The text for a person.
    pub text: String,
    /// What the verifier answers.
    pub judgement: Judgement,
}

/// The instructions of a program, what is known before each of them, and what the verifier answers: the bound and the
/// frames, or the first broken rule in words, with what usually helps. If it is a rule of values, what was known of those
/// that the instruction reads stands there, too. `source` has the lines of the text from which the code was assembled, one
/// an instruction, or none.
pub fn explain(
    alloc: Global,
    image: Image,
    source: &[SourceLine<'_>],
) -> Result<Explanation, AllocError>
    ensures { IfOk result (λ explained. Explains image source.now (string_bytes explained.text) explained.judgement) }
{
    // An image has code, so that a unit which is refused stands in it.
    let _code = image.code();
    let passages = known_states(alloc, &image)?;
    match verify(alloc, image) {
        Ok(verified) => {
            let judgement = Judgement::Accepted {
                bound: verified.bound(),
                frames: verified.frames(),
            };
            let text = write_all(alloc, verified.image(), source, &passages, judgement)?;
            Ok(Explanation { text, judgement })
        }
        Err((image, refusal)) => {
            refusal.rule_or_memory()?;
            let judgement = Judgement::Refused(refusal);
            let text = write_all(alloc, &image, source, &passages, judgement)?;
            Ok(Explanation { text, judgement })
        }
    }
}

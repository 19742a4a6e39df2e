//! What the verifier answers, and how it is explained.
use crate::code::code_of;
use crate::images::image_of;
use anyhow::Result;
use bpf_image::Image;
use explanation::{SourceLine, explain, source_lines};
use std::alloc::{AllocError, Global};
use verifier::{Refusal, verify};

fn refusal_text(alloc: Global, refusal: Refusal) -> Result<String, AllocError> {
    let Refusal { cause, pc } = refusal;
    format!(in alloc; "cause {} {cause:?}, pc {pc}", cause as u8)
}

/// The bound and the frames of a program, or the rule that it breaks.
pub(crate) fn verified(alloc: Global, record_length: u16, input: &str) -> Result<String> {
    let Some(image) = image_of(alloc, record_length, input)? else {
        return Ok(String::from_str(alloc, "no image")?);
    };
    match verify(alloc, image) {
        Ok(program) => {
            let (bound, frames) = (program.bound(), program.frames());
            Ok(format!(in alloc; "bound {bound}, frames {frames}")?)
        }
        Err((_, refusal)) => Ok(refusal_text(alloc, refusal)?),
    }
}

/// The lines of a program in assembler text. Code has none.
fn lines_of(alloc: Global, input: &str) -> Result<Vec<SourceLine<'_>>, AllocError> {
    if input.starts_with("code ") {
        return Ok(Vec::new(alloc));
    }
    source_lines(alloc, input)
}

/// The explanation of a program.
pub(crate) fn explained(alloc: Global, record_length: u16, input: &str) -> Result<String> {
    let Ok(image) = Image::new(record_length, code_of(alloc, input)?) else {
        return Ok(String::from_str(alloc, "no image")?);
    };
    let source = lines_of(alloc, input)?;
    Ok(explain(alloc, image, &source)?.text)
}

//! From code to text: instructions and where they go, and then lines.
mod decoding;
pub(crate) mod disassembler;
pub(crate) mod placed;
pub(crate) mod statement_texts;
mod targets;
mod word_texts;

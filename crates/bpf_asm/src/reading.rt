//! From text to code: lines, words, arguments and labels, and then units.
mod argument;
pub(crate) mod assembler;
mod coding;
mod distance;
mod item;
mod labels;
mod lexing;
mod line;
mod lookup;
mod numeral;
mod parsed;
mod part;
mod statement;
mod statement_arguments;
mod word;

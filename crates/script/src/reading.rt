//! The words of a script's lines: what a line says, before anything is known of graphs and names. They are read in place; only code,
//! arguments and frontiers are copied.
mod batches;
mod block_end;
mod hex;
mod lending;
mod line;
mod names;
mod numbers;
mod statements;
mod words;

pub(crate) use batches::batch_line;
pub(crate) use block_end::is_end;
pub(crate) use line::{Asking, BatchLine, Line, Statement};
pub(crate) use statements::statement_line;
pub(crate) use words::is_plain_line;

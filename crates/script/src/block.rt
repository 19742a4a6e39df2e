//! Lines that belong together and whose end has not come.

ghost use Rattle.std.specs.Prelude.{◌≡◌};
ghost use Rattle.script_model.specs.State.{first_line};
ghost use Rattle.script.specs.Kept.{block_of};

use past_model::Edit;

/// A batch whose end has not come: the line that opened it, its feed (0 for A), and its edits so far.
#[derive(Drop)]
pub struct BegunBatch {
    pub line: u64,
    pub feed: u8,
    pub edits: Vec<Edit>,
}

/// A program in assembler text whose end has not come: the line that opened it, its name and record
/// length, how many lines it has so far, and these lines, each with its line feed.
#[derive(Drop)]
pub struct BegunProgram {
    pub line: u64,
    pub name: Vec<u8>,
    pub record_length: u16,
    pub lines: u32,
    pub text: Vec<u8>,
}

/// A block that is open.
#[derive(Drop)]
pub enum Block {
    Batch(BegunBatch),
    Program(BegunProgram),
}

impl Block {
    /// The line that opened it.
    pub(crate) fn first_line(&self) -> u64
        ensures { result ≡ first_line (block_of self.now) }
    {
        match self {
            Block::Batch(begun) => begun.line,
            Block::Program(begun) => begun.line,
        }
    }
}

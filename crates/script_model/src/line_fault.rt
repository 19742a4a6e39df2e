//! What may be wrong with a line of a script.

ghost use Rattle.std.specs.Prelude.{◌≡◌};
ghost use Rattle.script_model.specs.Texts.{line_fault_number};

use session_model::Fault;

/// What is wrong with a line of a script. A line's faults are tested in the order of their numbers.
#[derive(Clone, Copy, Debug, PartialEq, Eq)]
pub enum LineFault {
    /// The line has more than 80,000 bytes, its end not counted.
    LongLine,
    /// A byte that is neither printable ASCII nor a tab, an unknown command, or words that do not fit it.
    Words,
    /// Something is wrong with the command that the line gives, or with its part of one.
    Command(Fault),
    /// The script ends inside a block.
    OpenBlock,
}

impl LineFault {
    /// The number that is written: 1 to 11.
    pub fn number(self) -> u64
        ensures { result ≡ line_fault_number self }
    {
        match self {
            LineFault::LongLine => 1,
            LineFault::Words => 2,
            LineFault::Command(fault) => fault as u64,
            LineFault::OpenBlock => 10,
        }
    }
}

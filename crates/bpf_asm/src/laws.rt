//! The law of both directions, and of the calls. The function of the first does nothing: its contract is the law. Each
//! of the others only makes a public call, and is proved from its contract alone.
ghost use Rattle.std.specs.Prelude.{◌≡◌, ◌≢◌, IsErrAnd};
ghost use Rattle.bpf_asm.specs.Laws.{ProgramHasText, TextMeansCode};

use crate::errors::{AssembleError, DisassembleError, TextCause};
use crate::reading::assembler::assemble;
use crate::writing::disassembler::disassemble;
use bpf_isa::laws::decoded_is_code;
use std::alloc::Global;

/// Assembling the disassembly gives the code again.
pub fn disassembly_assembles(code: &[u8])
    // Code of at most 4,096 units that decodes to its end, and whose jumps and local calls go to starts of
    // instructions, has a text, and the text means the code.
    ensures program { ProgramHasText code.now }
    // What has a text is such a code, and its text means it.
    ensures text { TextMeansCode code.now }
{
    decoded_is_code(code);
}

/// A label that no line defines is reported with the line that jumps to it, if memory lasts.
pub fn unknown_label_is_reported_with_its_line(alloc: Global) -> Result<Vec<u8>, AssembleError>
    ensures { IsErrAnd result (λ e. e.cause ≢ TextCause.OutOfMemory
        → e ≡ record { line = 2; cause = TextCause.UnknownLabel }) }
{
    assemble(alloc, "exit\nja x")
}

/// A jump into the second unit of a load of 64 bits goes where no instruction starts.
pub fn jump_into_a_second_unit_is_refused(alloc: Global) -> Result<String, DisassembleError>
    ensures { IsErrAnd result (λ e. e ≢ DisassembleError.OutOfMemory → e ≡ DisassembleError.JumpOut 0) }
{
    // ja +1, lddw r0, 0, exit
    let code = [
        0x05, 0, 1, 0, 0, 0, 0, 0, 0x18, 0, 0, 0, 0, 0, 0, 0, 0, 0, 0, 0, 0, 0, 0, 0, 0x95, 0, 0,
        0, 0, 0, 0, 0,
    ];
    disassemble(alloc, &code)
}

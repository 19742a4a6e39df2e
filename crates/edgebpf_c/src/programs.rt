//! Programs.
ghost use Rattle.std.specs.Prelude.{◌≡◌, ◌≢◌, ◌⊎◌};
ghost use Rattle.bpf_image.specs.Program.{IsImage};
ghost use Rattle.embedding.specs.declared.statuses.TheConstants.{DONE, NO_MEMORY, LENGTHS, REFUSED};
ghost use Rattle.embedding.specs.Holding.{OnProgram, HoldsProgram};
ghost use Rattle.embedding.specs.Batches.{IsHandedOut};
ghost use Rattle.embedding.specs.Programs.{program_of, NamesLength, IsOfLength, IsAccepted, IsRefused};
ghost use Rattle.embedding.specs.Texts.{IsAssembled, IsExplained};

use embedding::{
    Assembled, EMPTY, Handle, ProgramBytes, Verdict, assemble_into, explain_into, new_program,
    share_program_held,
};
use std::alloc::Global;

/// Verifies a program of this code for records of this length. Without a byte of a table it has none.
#[unsafe(no_mangle)]
pub extern "C" fn edgebpf_program_new(
    alloc: Global,
    record_length: u16,
    code: &[u8],
    table: &[u8],
    verdict: &mut Verdict,
    out: &mut Handle,
) -> u32
    ensures lengths { NamesLength (program_of record_length code.now table.now) result }
    ensures image { (result ≡ DONE) ⊎ (result ≡ REFUSED) → IsImage (program_of record_length code.now table.now) }
    ensures others { result ≢ DONE → result ≢ REFUSED → (IsOfLength result → ⊥) → result ≡ NO_MEMORY }
    ensures made { result ≡ DONE → HoldsProgram out.new.held (program_of record_length code.now table.now) }
    ensures accepted { result ≡ DONE → IsAccepted (program_of record_length code.now table.now) verdict.new }
    ensures refused { result ≡ REFUSED → IsRefused (program_of record_length code.now table.now) verdict.new }
    ensures left { result ≢ DONE → out.new.held ≡ out.old.held }
{
    let bytes = ProgramBytes {
        record_length,
        code,
        table,
    };
    new_program(alloc, &bytes, verdict, out)
}

/// Another handle of the same program, for another thread.
#[unsafe(no_mangle)]
pub extern "C" fn edgebpf_program_share(
    alloc: Global,
    program: &mut Handle,
    out: &mut Handle,
) -> u32
    ensures kept { program.new.held ≡ program.old.held }
    ensures answered { OnProgram program.old.held result (out.new.held ≡ out.old.held)
        (λ p. IsHandedOut result (HoldsProgram out.new.held p) (out.new.held ≡ out.old.held)) }
{
    match program.take(alloc) {
        None => EMPTY,
        Some(held) => {
            let answer = share_program_held(alloc, &held, out);
            program.put(held);
            answer
        }
    }
}

/// The code that a text means.
#[unsafe(no_mangle)]
pub extern "C" fn edgebpf_assemble(
    alloc: Global,
    text: &[u8],
    code: &mut [u8],
    assembled: &mut Assembled,
) -> u32
    ensures { IsAssembled text.now code.old result assembled.new code.new }
{
    assemble_into(alloc, text, code, assembled)
}

/// A text that explains a program to a person: what the verifier knows of it, and why it is refused.
#[unsafe(no_mangle)]
pub extern "C" fn edgebpf_explain(
    alloc: Global,
    record_length: u16,
    code: &[u8],
    table: &[u8],
    text: &mut [u8],
    count: &mut usize,
) -> u32
    ensures explained { (result ≡ DONE) ⊎ (result ≡ LENGTHS)
        → IsExplained (program_of record_length code.now table.now) text.old result text.new count.new }
    ensures lengths { NamesLength (program_of record_length code.now table.now) result }
    ensures others { result ≢ DONE → result ≢ LENGTHS → (IsOfLength result → ⊥) → result ≡ NO_MEMORY }
    ensures left { result ≢ DONE → text.new ≡ text.old }
{
    let bytes = ProgramBytes {
        record_length,
        code,
        table,
    };
    explain_into(alloc, &bytes, text, count)
}

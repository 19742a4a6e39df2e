//! A script that is read, executed and written block by block.

ghost use Rattle.std.specs.Prelude.{◌≡◌, ◌<◌, ◌≤◌, ℕ, List, [], Option, OnOk, length, drop};
ghost use Rattle.service.specs.Served.{IsOneLine};
ghost use Rattle.service.specs.Serves.{Serves, CountsReads, CountsWrites};
ghost use Rattle.service.specs.Rounds.{Advances, Concludes, Ends, Turns, IsServed, IsNoRead};
ghost use Rattle.service.specs.Asking.{Asks, AskedBy, AsksBy, OnStore, IsNoStore};

use crate::ends::{Input, Output};
use crate::lines::{Progress, execute_read};
use crate::serve_error::ServeError;
use crate::writing::{write_edges, write_text};
use script::{Crew, Ending, Gate, Script, Step};
use std::alloc::{AllocError, Global};
use std::marker::Model;
use std::sync::Wait;
use std::thread::Threads;

/// The most bytes that one read asks for.
const BLOCK_BYTES: usize = 262_144;

/// A script on its way: how far it is, the bytes that were read and not executed, and the text that is
/// not written.
struct Serving {
    script: Script,
    pending: Vec<u8>,
    text: Vec<u8>,
    alloc: Global,
}

impl Model for Serving {
    ghost use Rattle.service.specs.Stand.{Stand};

    ghost Value = { Stand };

    ghost view = { λ s. record { script = s.script; pending = s.pending.items; text = s.text.items } };
}

impl Serving {
    /// Drops the first bytes that were read, which are executed.
    fn drop_first(&mut self, count: usize) -> Result<(), AllocError>
        requires { count ≤ length self.old.pending }
        ensures script { self.new.script ≡ self.old.script }
        ensures text { self.new.text ≡ self.old.text }
        ensures pending { OnOk result (self.new.pending ≡ drop count self.old.pending) }
    {
        self.pending = Vec::from_slice(self.alloc, &self.pending[count..])?;
        Ok(())
    }

    /// Executes the whole lines among what was read, and writes what they say.
    fn advance<O: Output, Ga: Gate, R: Threads + Wait>(
        &mut self,
        crew: &Crew<'_, R, Ga>,
        output: &mut O,
    ) -> Result<Option<Ending>, ServeError>
        requires written { self.old.text ≡ [] }
        ensures advance { Advances result (O.contents output.old) (O.contents output.new) self.old self.new }
        ensures store { OnStore result (Asks self.old.script self.old.pending) }
        ensures no_read { IsNoRead result }
        ensures writes { CountsWrites result (O.failures output.old) (O.failures output.new) }
    {
        let mut from = 0;
        'lines: loop {
            let left = &self.pending[from..];
            match execute_read(crew, &mut self.script, &mut self.text, left)? {
                Progress::Left(more) => {
                    self.drop_first(from + more)?;
                    write_text(output, &mut self.text)?;
                    return Ok(None);
                }
                Progress::Lists(more, listing) => {
                    from += more;
                    write_edges(output, self.alloc, &mut self.text, &listing)?;
                }
                Progress::Settled => {
                    write_text(output, &mut self.text)?;
                    return Ok(Some(Ending::Fault));
                }
            }
        }
    }

    /// Ends a script all of whose lines are executed, and writes the text that is left.
    fn end<O: Output>(&mut self, output: &mut O) -> Result<Ending, ServeError>
        ensures ended { Ends result (O.contents output.old) (O.contents output.new) self.old }
        ensures no_read { IsNoRead result }
        ensures no_store { IsNoStore result }
        ensures writes { CountsWrites result (O.failures output.old) (O.failures output.new) }
    {
        let ending = self.script.finish(&mut self.text)?;
        write_text(output, &mut self.text)?;
        Ok(ending)
    }

    /// Executes the last line of a script, if that lacks its end, ends the script, and writes what it says.
    fn conclude<O: Output, Ga: Gate, R: Threads + Wait>(
        &mut self,
        crew: &Crew<'_, R, Ga>,
        output: &mut O,
    ) -> Result<Ending, ServeError>
        requires one { IsOneLine self.old.pending }
        requires written { self.old.text ≡ [] }
        ensures concluded { Concludes result (O.contents output.old) (O.contents output.new) self.old }
        ensures store { OnStore result (Asks self.old.script self.old.pending) }
        ensures no_read { IsNoRead result }
        ensures writes { CountsWrites result (O.failures output.old) (O.failures output.new) }
    {
        let rest = self.pending.as_slice();
        if rest.is_empty() {
            return self.end(output);
        }
        match self.script.execute(crew, &mut self.text, rest)? {
            Step::Executed => self.end(output),
            Step::Lists(listing) => {
                write_edges(output, self.alloc, &mut self.text, &listing)?;
                self.end(output)
            }
            Step::Stopped => {
                write_text(output, &mut self.text)?;
                Ok(Ending::Fault)
            }
        }
    }

    /// Reads some bytes, executes the lines that they end, and writes what they say. At the end of the input it ends
    /// the script.
    fn turn<I: Input, O: Output, Ga: Gate, R: Threads + Wait>(
        &mut self,
        crew: &Crew<'_, R, Ga>,
        input: &mut I,
        output: &mut O,
        block: &mut [u8],
    ) -> Result<Option<Ending>, ServeError>
        requires room { 0 < length block.old }
        requires one { IsOneLine self.old.pending }
        requires written { self.old.text ≡ [] }
        ensures same { length block.new ≡ length block.old }
        ensures turn { Turns result (I.remaining input.old) (I.remaining input.new)
            (O.contents output.old) (O.contents output.new) self.old self.new }
        ensures store { OnStore result
            (AsksBy (I.remaining input.old) (I.remaining input.new) (O.contents output.old) self.old) }
        ensures reads { CountsReads result (I.failures input.old) (I.failures input.new) }
        ensures writes { CountsWrites result (O.failures output.old) (O.failures output.new) }
    {
        let Ok(count) = input.read(block) else {
            return Err(ServeError::Read);
        };
        if count == 0 {
            let ending = self.conclude(crew, output)?;
            return Ok(Some(ending));
        }
        self.pending.extend_from_slice(&block[..count])?;
        self.advance(crew, output)
    }

    /// Reads, executes and writes until the script ends.
    fn until_ended<I: Input, O: Output, Ga: Gate, R: Threads + Wait>(
        &mut self,
        crew: &Crew<'_, R, Ga>,
        input: &mut I,
        output: &mut O,
        block: &mut [u8],
    ) -> Result<Ending, ServeError>
        requires room { 0 < length block.old }
        requires one { IsOneLine self.old.pending }
        requires written { self.old.text ≡ [] }
        ensures served { (had held : Option (List ℕ))
            → IsServed had (I.remaining input.old) held (O.contents output.old) self.old
            → Serves result had (I.remaining input.new) held (O.contents output.new) }
        ensures store { OnStore result
            (AsksBy (I.remaining input.old) (I.remaining input.new) (O.contents output.old) self.old) }
        ensures reads { CountsReads result (I.failures input.old) (I.failures input.new) }
        ensures writes { CountsWrites result (O.failures output.old) (O.failures output.new) }
    {
        for _ in 0..u64::MAX {
            if let Some(ending) = self.turn(crew, input, output, block)? {
                return Ok(ending);
            }
        }
        // No machine reads so often.
        Err(ServeError::OutOfMemory)
    }

    /// Drops the script and what it has made.
    fn close<R: Wait>(self, rt: &R) {
        let Serving {
            script,
            pending: _,
            text: _,
            alloc: _,
        } = self;
        script.close(rt);
    }
}

/// Serves the script of an input to an output: executes its lines in order, and writes what they say.
///
/// `Complete`: the input is at its end, and every line was executed. `Fault`: a line has a fault, and
/// what was written ends with it. After an error, what was written begins what the script writes, and
/// `Read` and `Write` come only where a read or a write failed, which is not tried again. Bytes are read
/// and written in blocks; the edges that a line lists are run, and their lines written, block by block. A line is
/// executed once all of it was read, and one without end is a fault once it is too long. Batches and runs are made by
/// workers, and neither their number, nor their gate, nor the order in which threads run changes what is written; a piece
/// of a batch is a range of 256 vertices, one of a run 64 places of its frontier. `WorkerRefused` comes if a thread could not
/// be started; one worker needs none. `Store` comes only at a line whose answer the store alone gives: the end of a batch, a
/// pin, a home or a rebase.
pub fn serve<I: Input, O: Output, Ga: Gate, R: Threads + Wait>(
    crew: &Crew<'_, R, Ga>,
    alloc: Global,
    input: &mut I,
    output: &mut O,
) -> Result<Ending, ServeError>
    ensures served { Serves result (I.remaining input.old) (I.remaining input.new)
        (O.contents output.old) (O.contents output.new) }
    ensures store { OnStore result (AskedBy (I.remaining input.old) (I.remaining input.new)) }
    ensures reads { CountsReads result (I.failures input.old) (I.failures input.new) }
    ensures writes { CountsWrites result (O.failures output.old) (O.failures output.new) }
{
    let mut block = vec![in alloc; 0u8; BLOCK_BYTES]?;
    let mut serving = Serving {
        script: Script::new(alloc),
        pending: Vec::new(alloc),
        text: Vec::new(alloc),
        alloc,
    };
    let answer = serving.until_ended(crew, input, output, &mut block);
    serving.close(crew.rt);
    answer
}

//! Texts that are written whole.

ghost use Rattle.std.specs.Prelude.{◌≡◌, ◌++◌, [], OnOk, OnErr};
ghost use Rattle.std.specs.List.{flat_map};
ghost use Rattle.std.specs.Io.KnownBytes.{Appends};
ghost use Rattle.script_model.specs.Texts.{edge_text};
ghost use Rattle.service.specs.Ends.{CountsFailure, TakesFront};
ghost use Rattle.service.specs.Serves.{CountsWrites};
ghost use Rattle.service.specs.Rounds.{IsNoRead};
ghost use Rattle.service.specs.Asking.{IsNoStore};

use crate::ends::{Failure, Output};
use crate::serve_error::ServeError;
use script::{EdgeLines, Listing};
use std::alloc::Global;

/// Writes all bytes of a text. After a failure the output has some of them, from the front.
pub(crate) fn write_all<O: Output>(output: &mut O, text: &[u8]) -> Result<(), Failure>
    ensures ok { OnOk result (Appends (O.contents output.old) (O.contents output.new) text.now) }
    ensures err { OnErr result (TakesFront (O.contents output.old) (O.contents output.new) text.now) }
    ensures failures { CountsFailure result (O.failures output.old) (O.failures output.new) }
{
    let mut from = 0;
    while from < text.len() {
        match output.write(&text[from..]) {
            Ok(count) => from += count,
            Err(failure) => return Err(failure),
        }
    }
    Ok(())
}

/// Writes a text and clears it. After an error the output has some of it, from the front.
pub(crate) fn write_text<O: Output>(output: &mut O, text: &mut Vec<u8>) -> Result<(), ServeError>
    ensures ok { OnOk result (Appends (O.contents output.old) (O.contents output.new) text.old.items) }
    ensures empty { OnOk result (text.new.items ≡ []) }
    ensures err { OnErr result (TakesFront (O.contents output.old) (O.contents output.new) text.old.items) }
    ensures no_read { IsNoRead result }
    ensures no_store { IsNoStore result }
    ensures writes { CountsWrites result (O.failures output.old) (O.failures output.new) }
{
    match write_all(output, text) {
        Ok(()) => {
            text.clear();
            Ok(())
        }
        Err(Failure) => Err(ServeError::Write),
    }
}

/// Writes a text and after it the lines of a listing's edges, block by block: no more of them is held at once than
/// the lines of one block. After an error the output has some of all this, from the front.
pub(crate) fn write_edges<O: Output>(
    output: &mut O,
    alloc: Global,
    text: &mut Vec<u8>,
    listing: &Listing,
) -> Result<(), ServeError>
    ensures ok { OnOk result (Appends (O.contents output.old) (O.contents output.new)
        (text.old.items ++ flat_map edge_text listing.now)) }
    ensures empty { OnOk result (text.new.items ≡ []) }
    ensures err { OnErr result (TakesFront (O.contents output.old) (O.contents output.new)
        (text.old.items ++ flat_map edge_text listing.now)) }
    ensures no_read { IsNoRead result }
    ensures no_store { IsNoStore result }
    ensures writes { CountsWrites result (O.failures output.old) (O.failures output.new) }
{
    let mut lines = EdgeLines::of(alloc, listing);
    loop {
        write_text(output, text)?;
        if !lines.put_block(alloc, text)? {
            return Ok(());
        }
    }
}

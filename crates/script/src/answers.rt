//! The text of an answer.

ghost use Rattle.std.specs.Prelude.{◌≡◌, ◌++◌, OnOk};
ghost use Rattle.session.specs.Kept.{answer_of};
ghost use Rattle.script.specs.Listed.{first_text};

use crate::texts::{
    put_batch, put_column, put_counts, put_graph, put_home, put_image, put_list, put_pin,
    put_program, put_pull, put_rebase, put_refused, put_rows, put_run, put_values, put_way,
};
use session::Answer;
use std::alloc::AllocError;

/// Writes the lines of an answer at the end of a text, but those of the edges that it lists.
pub(crate) fn put_answer(text: &mut Vec<u8>, answer: &Answer) -> Result<(), AllocError>
    ensures { OnOk result (text.new.items ≡ text.old.items ++ first_text (answer_of answer.now)) }
{
    match answer {
        Answer::GraphMade { vertices } => put_graph(text, *vertices),
        Answer::BatchPublished {
            feed,
            number,
            added,
            removed,
        } => put_batch(text, *feed, *number, *added, *removed),
        Answer::ProgramAccepted {
            name,
            bound,
            frames,
        } => put_program(text, name, u64::from(*bound), u64::from(*frames)),
        Answer::ProgramRefused { name, refusal } => put_refused(text, name, *refusal),
        Answer::NoImage { name, error } => put_image(text, name, *error),
        Answer::PinTaken {
            name,
            number,
            edges,
        } => put_pin(text, name, *number, *edges),
        Answer::EdgesMapped {
            program,
            pin,
            edges,
            total,
            rows,
        } => {
            put_run(text, program, pin, *edges, *total)?;
            put_rows(text, rows)
        }
        Answer::HomeReported {
            vertex,
            home,
            degree,
        } => put_home(text, *vertex, *home, u64::from(*degree)),
        Answer::Rebased { epoch, edges } => put_rebase(text, *epoch, *edges),
        Answer::EdgesListed {
            program,
            pin,
            edges,
            listing: _,
        } => put_list(text, program, pin, *edges),
        Answer::ColumnSet { name, count } => put_column(text, name, *count),
        Answer::ValuesShown { rows } => put_values(text, rows),
        Answer::RowsPulled {
            program,
            pin,
            edges,
            total,
            rows,
        } => {
            put_pull(text, program, pin, *edges, *total)?;
            put_rows(text, rows)
        }
        Answer::ColumnWritten {
            way,
            program,
            pin,
            count,
            total,
            changed,
        } => {
            put_way(text, *way, program, pin)?;
            put_counts(text, *way, *count, *total, *changed)
        }
    }
}

//! What a host lends the runs of a program besides their edges.
ghost use Rattle.std.specs.Prelude.{◌≡◌};
ghost use Rattle.past_model.specs.Past.{graph_of};
ghost use Rattle.embedding.specs.Lent.{FitRecords, lent_of, lent_status};
ghost use Rattle.embedding.specs.declared.statuses.TheConstants.{DONE};

use crate::runnable::{Lent, Runnable};
use crate::statuses::{ARGUMENT_LENGTH, COLUMNS, DONE};
use edge_fold::{COLUMN_BYTES, EDGE_BYTES, columns_fit};
use version::Version;

/// Whether what a host lends fits a version and a program: `DONE`, or what is wrong.
pub(crate) fn test_lent(version: &Version, program: &Runnable, lent: &Lent<'_>) -> u32
    ensures status { result ≡ lent_status (graph_of version.now) program.now (lent_of lent.now) }
    ensures fits { result ≡ DONE → FitRecords program.now (lent_of lent.now) }
{
    if !columns_fit(lent.columns, version.vertex_count()) {
        return COLUMNS;
    }
    let length = lent.argument.len() + EDGE_BYTES + COLUMN_BYTES * lent.columns.len();
    if length != usize::from(program.record_length()) {
        return ARGUMENT_LENGTH;
    }
    DONE
}

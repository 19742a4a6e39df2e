//! What a host in another language holds of this one: a store, its versions and verified programs in handles, and the
//! calls on what handles hold. Each call that `edgebpf_c` makes on them answers a status and has no precondition.
#![tactic(auto)]

mod branches;
mod changes;
mod copies;
mod edits;
mod handle;
mod held;
mod lent;
mod lists;
mod numbers;
mod pairs;
mod places;
mod programs;
mod pushes;
mod questions;
mod raw_box;
mod runnable;
mod runs;
mod slices;
mod sorted;
mod statuses;
mod store;
mod tested;
mod texts;

pub use answers::{Components, Cores, Search};
pub use branches::store_of_held;
pub use changes::{apply_held, new_store, pin_held, rebase_held};
pub use copies::copy_held;
pub use edge_fold::Progress;
pub use edits::Arrays;
pub use handle::{Handle, hand_out};
pub use held::Held;
pub use lists::{degrees_held, lists_held};
pub use numbers::{NumbersAsked, number_held, numbers_some_held};
pub use pairs::{PairsAsked, pairs_held};
pub use programs::{ProgramBytes, Verdict, new_program, share_program_held};
pub use pushes::{push_held, push_some_held};
pub use questions::{
    Info, degree_held, has_edge_held, info_held, neighbour_held, share_version_held,
};
pub use runnable::{Edges, Lent, Runnable};
pub use runs::{RunAsked, Totals, run_held, run_some_held};
pub use slices::{Slice, lend_from_held, lend_held};
pub use sorted::store_from;
pub use statuses::{
    ARGUMENT_LENGTH, CODE_LENGTH, DONE, EMPTY, EPOCHS_FULL, FEED, LENGTHS, LOG_FULL, NO_MEMORY,
    NO_NEIGHBOUR, NOT_SORTED, OTHER_KIND, PROGRESS, RECORD_LENGTH, REDUCTION, REFUSED,
    TABLE_LENGTH, TOO_MANY_EDITS, VERTEX_COUNT, VERTEX_RANGE, WRONG_TEXT,
};
pub use store::{Change, Store};
pub use tested::{are_components_held, are_cores_held, is_independent_set_held, is_search_held};
pub use texts::{Assembled, assemble_into, explain_into};

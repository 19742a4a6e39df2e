//! What was refused memory.

/// Why it came to no end.
#[derive(Clone, Copy, PartialEq, Eq)]
pub enum Stop {
    /// There was no memory for what a call is handed.
    NotBegun,
    /// A change of the array was refused, and it is as it was.
    ArrayUnchanged,
    /// A change of the tree was refused, and it is as it was.
    TreeUnchanged,
    /// A batch was refused, and each list of the table is as it was.
    ListsUnchanged,
    /// `assemble` answered so.
    NotAssembled,
    /// `disassemble` answered so.
    NotDisassembled,
    /// `verify` answered so.
    NotVerified,
    /// A step was refused, its batch was held, and the last version was as it was. The next step published the batch.
    NotPublished,
    /// A rebase was refused, and the last version was as it was. The next rebase was done.
    NotRebased,
    /// A step was refused, and its batch was held over a rebase. The next step published it in the new epoch.
    HeldOver,
    /// The same in the epoch after the first rebase: another one follows.
    HeldOverLater,
    /// `apply_batch` answered so.
    NotApplied,
    /// `run` answered so.
    NotRun,
    /// `map_edges` answered so.
    NotMapped,
    /// A list's block was refused, and came when it was asked for again.
    NotListed,
    /// Something is not as it should be.
    Wrong,
}

impl Stop {
    /// What is printed.
    pub(crate) fn text(self) -> &'static str {
        match self {
            Stop::NotBegun => "not begun",
            Stop::ArrayUnchanged => "array unchanged",
            Stop::TreeUnchanged => "tree unchanged",
            Stop::ListsUnchanged => "lists unchanged",
            Stop::NotAssembled => "not assembled",
            Stop::NotDisassembled => "not disassembled",
            Stop::NotVerified => "not verified",
            Stop::NotPublished => "not published",
            Stop::NotRebased => "not rebased",
            Stop::HeldOver => "held over",
            Stop::HeldOverLater => "held over later",
            Stop::NotApplied => "not applied",
            Stop::NotRun => "not run",
            Stop::NotMapped => "not mapped",
            Stop::NotListed => "not listed",
            Stop::Wrong => "wrong",
        }
    }

    /// This one where nothing was changed by what was refused.
    pub(crate) fn if_unchanged(self, is_unchanged: bool) -> Stop {
        if is_unchanged { self } else { Stop::Wrong }
    }
}

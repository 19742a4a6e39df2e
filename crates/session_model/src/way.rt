//! How a command writes a column.

/// How a command writes a column. All numbers that it reads are those before it, of the column that it writes, too.
#[derive(Clone, Copy, Debug, PartialEq, Eq)]
pub enum Way {
    /// Each vertex of the frontier gets what the numbers of its edges reduce to.
    Pull,
    /// The number of each edge of the frontier is reduced into that of its target.
    Push,
    /// Each vertex of the frontier gets its own number: that of the pair of it with itself.
    Each,
}

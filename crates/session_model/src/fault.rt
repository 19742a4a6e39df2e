//! What may be wrong with a command.

use thiserror::Error;

/// What is wrong with a command. The numbers are part of the script language, and a command's faults are
/// tested in their order.
#[derive(Clone, Copy, Debug, PartialEq, Eq, Error)]
pub enum Fault {
    /// A command before there is a graph, or a second graph.
    #[error("there is no graph yet, or there is one already")]
    Order = 3,
    /// A number of vertices, a record length, a vertex or a feed out of its range.
    #[error("a number is out of its range")]
    Range = 4,
    /// A name that is already used, or that is unknown.
    #[error("a name is used already, or unknown")]
    Name = 5,
    /// An argument that does not have the record length less 16 bytes, and less 16 for each column.
    #[error("the argument does not have the record's length less 16 bytes, and less 16 for each column")]
    ArgumentLength = 6,
    /// A frontier that is not strictly ascending.
    #[error("the frontier does not ascend")]
    Frontier = 7,
    /// The 65,537th edit of a batch or line of a program, a 257th program or pin, a 65th column, or a 9th one for a record.
    #[error("there are as many as there may be")]
    TooMany = 8,
    /// A batch where 4,096 are published already since the last rebase.
    #[error("as many batches are published as may be")]
    LogFull = 9,
    /// A rebase where 1,024 are published already.
    #[error("as many rebases are published as may be")]
    EpochsFull = 11,
}

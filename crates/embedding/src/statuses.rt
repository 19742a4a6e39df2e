//! What a call answers: 0, or why it did nothing.

/// It is done.
pub const DONE: u32 = 0;
/// There is no memory. Each handle is as it was, and the call may be made again.
pub const NO_MEMORY: u32 = 1;
/// The handle is empty.
pub const EMPTY: u32 = 2;
/// The handle holds something of another kind.
pub const OTHER_KIND: u32 = 3;
/// The number of vertices is not from 1 to 268,435,456.
pub const VERTEX_COUNT: u32 = 4;
/// An edit names a vertex that the graph does not have.
pub const VERTEX_RANGE: u32 = 5;
/// There are more than 65,536 edits.
pub const TOO_MANY_EDITS: u32 = 6;
/// 4,096 batches were applied since the store began or was rebased, and there is room for no more.
pub const LOG_FULL: u32 = 7;
/// There is no such feed: they are 0 to 3.
pub const FEED: u32 = 8;
/// Arrays whose lengths do not fit together, one with too little room, or a frontier of more than 268,435,456 vertices.
pub const LENGTHS: u32 = 9;
/// The verifier refuses the program.
pub const REFUSED: u32 = 10;
/// The record length is not from 16 to 256.
pub const RECORD_LENGTH: u32 = 11;
/// The code is not 1 to 4,096 whole units of 8 bytes.
pub const CODE_LENGTH: u32 = 12;
/// The argument is not as long as the record less 16 bytes, and less 16 for each column.
pub const ARGUMENT_LENGTH: u32 = 13;
/// There is no such reduction.
pub const REDUCTION: u32 = 14;
/// The text means no code.
pub const WRONG_TEXT: u32 = 15;
/// The vertex has no neighbour at this place.
pub const NO_NEIGHBOUR: u32 = 16;
/// As many rebases were made as 64 bits count: 2^64 - 1.
pub const EPOCHS_FULL: u32 = 17;
/// The table has more than 4,096 bytes.
pub const TABLE_LENGTH: u32 = 18;
/// There are more than 8 columns, or one has not a number for each vertex.
pub const COLUMNS: u32 = 19;
/// The progress names no place of this frontier.
pub const PROGRESS: u32 = 20;
/// The arrays are not sorted: the starts of the lists ascend from 0 to the number of targets, and the targets of each list ascend.
pub const NOT_SORTED: u32 = 21;

//! Limits of runs and programs, and where the memory of a run lies. Clauses and definitions cite them by
//! name.

/// The address at which the record begins.
pub const RECORD_BASE: u64 = 0x1_0000_0000;

/// The address above which the frames lie, one above the other.
pub const STACK_BASE: u64 = 0x2_0000_0000;

/// The address at which the table begins, of a program that has one.
pub const TABLE_BASE: u64 = 0x3_0000_0000;

/// How many bytes of addresses belong to each frame. Those of the frame itself are the last of them.
pub const FRAME_SPACE: u64 = 4_096;

/// How many bytes the stack frame of a function has.
pub const FRAME_BYTES: usize = 512;

/// How many frames may be live at once: those of a function and of all its callers.
pub const MOST_FRAMES: usize = 8;

/// How many bytes the helper gather may be lent at most.
pub const MOST_GATHER_BYTES: usize = 256;

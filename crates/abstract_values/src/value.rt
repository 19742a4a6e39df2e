//! What is known of a register.
/// What is known of a register, in every run that comes to a place.
#[derive(Clone, Copy, Debug, PartialEq, Eq)]
pub enum AbstractValue {
    /// Nothing: it may not even be set.
    Unset,
    /// It is a number from `lo` to `hi`.
    Number { lo: u64, hi: u64 },
    /// It is the address of the record's byte at an offset from `lo` to `hi`.
    Record { lo: u16, hi: u16 },
    /// It is the top of a live stack frame plus the offset, which is 0 or below. Frame 0 is the program's own, and
    /// each function that is called has the next.
    Stack { frame: u8, offset: i16 },
    /// It is the address of the table's byte at an offset from `lo` to `hi`.
    Table { lo: u16, hi: u16 },
}

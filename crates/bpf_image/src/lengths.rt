//! How long the regions are that each run of a program is lent.
/// How many bytes a run is lent. Definitions and signatures hand it on whole.
#[derive(Clone, Copy, Debug, PartialEq, Eq)]
pub struct Lengths {
    /// The bytes of the record.
    pub record_length: u16,
    /// The bytes of the table. Without a table there are none.
    pub table_length: u16,
}

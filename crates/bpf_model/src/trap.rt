//! Why a run stopped.
/// Why a run stopped without an exit number. If several apply to one instruction, the lowest number is given, with three
/// exceptions: an exit while R0 is not set is `UnsetResult`, and never `UnsetRegister`; `ReadOnly` ranks as `OutsideMemory`, in
/// place of which it is given; and a room that gather may not have (`RoomNotAllowed`) ranks before the bytes that it would
/// write to.
#[derive(Clone, Copy, Debug, PartialEq, Eq)]
pub enum TrapKind {
    /// No instruction stands at the pc.
    BadInstruction = 1,
    /// The pc is outside the code.
    OutsideCode = 2,
    /// A register is read that is not set.
    UnsetRegister = 3,
    /// An access lies neither wholly in the record nor wholly in one live frame, and a load not wholly in the table.
    OutsideMemory = 4,
    /// A stack byte is read that is not set.
    UnsetByte = 5,
    /// R10 is written.
    FrameRegister = 6,
    /// A function is called while eight frames are live.
    NinthFrame = 7,
    /// A helper is called that does not exist.
    UnknownHelper = 8,
    /// The room that gather is lent is no multiple of 4 from 4 to 256.
    RoomNotAllowed = 9,
    /// The function exits while R0 is not set.
    UnsetResult = 10,
    /// A store, or the helper gather, writes to bytes that lie wholly in the table.
    ReadOnly = 11,
}

//! The laws of what a step touches. Each function does nothing: its contract is the law.
ghost use Rattle.bpf_locality.specs.Live.{SomeBytesAreLive};
ghost use Rattle.bpf_locality.specs.Locality.{WritesLiveBytes, LeavesTable, RunsHaveTable, ReadsReadableBytes};

/// In each state the bytes of the record and of the current frame are live, those of the table may be read, and
/// address 0 is neither. So the laws below speak of some bytes, and not of all.
pub fn some_bytes_are_live()
    ensures { SomeBytesAreLive }
{}

/// A step of any program leaves each byte as it is that is live neither before the step nor after it. (Where a function is
/// called, its frame is laid out: it is live after the step.)
pub fn a_step_writes_live_bytes()
    ensures { WritesLiveBytes }
{}

/// A step of an image leaves each byte of its table as it is, while no more frames are live than a run may have.
pub fn a_step_leaves_the_table()
    ensures { LeavesTable }
{}

/// Each state of each run of an image, accepted or not, has the bytes of its table where it began.
pub fn a_run_has_its_table()
    ensures { RunsHaveTable }
{}

/// Two states that differ in no register, no caller and no byte that may be read take the same step: both exit with one
/// number, both trap in one way, or both go on, to states that again differ in none of these.
pub fn a_step_reads_readable_bytes()
    ensures { ReadsReadableBytes }
{}

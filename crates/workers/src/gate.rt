//! What stands around each piece of work.
ghost use Rattle.std.specs.Prelude.{◌<◌};

/// How many edits each worker of a batch has at least, on average, at the gate that holds nobody. To start a thread and to end it
/// takes as much CPU time as tens to hundreds of edits.
const EDITS_A_WORKER: usize = 512;

/// Stands around each piece of work. A piece is what one worker does without asking for more; who lets
/// workers run says what its pieces are, and each has a number. Two workers may be inside at once.
pub trait Gate: Sync {
    /// Called by the worker that does a piece, before it.
    fn enter(&self, piece: u32);

    /// Called by the same worker after the piece, also where the piece failed.
    fn leave(&self, piece: u32);

    /// How many edits each worker of a batch has at least, on average: of a batch with fewer edits than that for each, fewer
    /// workers are at work. It is 1 unless a gate says more, and then as many work as there are ranges for.
    #[inline(always)]
    fn edits_a_worker(&self) -> usize
        ensures { 0 < result }
    {
        1
    }
}

/// A gate that holds nobody. At it each worker of a batch has 512 edits at least, on average.
#[derive(Clone, Copy, Debug)]
pub struct OpenGate;

impl Gate for OpenGate {
    #[inline(always)]
    fn enter(&self, _piece: u32) {}

    #[inline(always)]
    fn leave(&self, _piece: u32) {}

    #[inline(always)]
    fn edits_a_worker(&self) -> usize
        ensures { 0 < result }
    {
        EDITS_A_WORKER
    }
}

//! What is known of all registers and of the stacks of all live frames.
ghost use Rattle.std.specs.Prelude.{◌≡◌};
ghost use Rattle.abstract_state.specs.States.{entry_table};

use abstract_values::AbstractValue;
use bpf_image::Lengths;
use bpf_isa::Register;
use bpf_model::{FRAME_BYTES, MOST_FRAMES};
use std::alloc::{AllocError, Global};
use std::marker::Model;

/// How many aligned slots of eight bytes a frame has.
pub const FRAME_SLOTS: usize = FRAME_BYTES / 8;

/// How many functions may wait for one that they called.
pub const MOST_CALLERS: usize = MOST_FRAMES - 1;

/// What is known of the stack bytes of a frame.
#[derive(Clone, Copy, Debug, PartialEq, Eq)]
pub struct Frame {
    /// What was spilled to each aligned slot of eight bytes, from the lowest; `Unset` where nothing was.
    pub slots: [AbstractValue; FRAME_SLOTS],
    /// Which bytes are set, from the lowest.
    pub bytes_set: [bool; FRAME_BYTES],
}

/// What is known of the frame of a function that is called, and what is kept for its caller.
#[derive(Clone, Copy)]
pub(crate) struct Called {
    pub(crate) frame: Frame,
    /// R6 to R9 of the function that called it.
    pub(crate) kept: [AbstractValue; 4],
}

/// Frames 1 to 7, each there while its function runs or waits.
pub(crate) type Places = [Option<Box<Called>>; MOST_CALLERS];

/// The frames of called functions.
#[derive(Drop)]
pub(crate) struct Callees {
    pub(crate) places: Places,
    /// The memory of a frame that was dropped, for the next call.
    pub(crate) spare: Option<Box<Called>>,
}

/// No frame of a called function.
pub(crate) const NO_PLACES: Places = [None, None, None, None, None, None, None];

/// What is known of all registers and of frame 0, that of the program itself. It is plain memory, so that a copy is
/// one move.
#[derive(Clone, Copy)]
pub(crate) struct Own {
    /// R0 to R10, by number.
    pub(crate) registers: [AbstractValue; 11],
    /// Frame 0.
    pub(crate) frame: Frame,
}

/// What is known of all registers and of the stacks of all live frames at a place. The frame of the program itself is a
/// part of it; each function that is called has a frame of its own.
pub struct AbstractState {
    pub(crate) own: Box<Own>,
    /// The frames of called functions; none before the first call.
    pub(crate) called: Option<Box<Callees>>,
}

impl Drop for AbstractState {
    // Written out, so that crates above prove a call here, and not the drop of each part.
    fn drop(self) {
        let AbstractState {
            own: _own,
            called: _called,
        } = self;
    }
}

impl Model for AbstractState {
    ghost use Rattle.std.specs.Prelude.{◌∷◌, Some, map};
    ghost use Rattle.abstract_state.specs.States.{AbstractState as Known};
    ghost use Rattle.abstract_state.specs.Called.{frame_called, kept_by, places_of};

    ghost Value = { Known };

    ghost view = { λ v. record {
      registers = v.own.value.registers;
      frames = Some v.own.value.frame ∷ map frame_called (places_of v.called);
      kept = map kept_by (places_of v.called);
    } };
}

/// What is known of R3 where a program begins: it points to the table, if there is one.
fn entry_table(lengths: Lengths) -> AbstractValue
    ensures { result ≡ entry_table lengths }
{
    if lengths.table_length == 0 {
        AbstractValue::Unset
    } else {
        AbstractValue::Table { lo: 0, hi: 0 }
    }
}

impl Frame {
    ghost use Rattle.abstract_state.specs.States.{new_frame};

    /// A frame of which no byte is set.
    pub(crate) fn new() -> Frame
        ensures { result ≡ new_frame }
    {
        Frame {
            slots: [AbstractValue::Unset; FRAME_SLOTS],
            bytes_set: [false; FRAME_BYTES],
        }
    }
}

impl AbstractState {
    ghost use Rattle.std.specs.Prelude.{Some, None, IfOk, MatchOption};
    ghost use Rattle.abstract_state.specs.States.{register, with_register, entry_state, frame_of};

    /// What is known where a program begins, of a record and a table of so many bytes.
    pub fn entry(alloc: Global, lengths: Lengths) -> Result<AbstractState, AllocError>
        ensures { IfOk result (λ state. state ≡ entry_state lengths) }
    {
        let unset = AbstractValue::Unset;
        let record = AbstractValue::Record { lo: 0, hi: 0 };
        let length = AbstractValue::Number {
            lo: u64::from(lengths.record_length),
            hi: u64::from(lengths.record_length),
        };
        let table = entry_table(lengths);
        let stack = AbstractValue::Stack {
            frame: 0,
            offset: 0,
        };
        let own = Own {
            registers: [
                unset, record, length, table, unset, unset, unset, unset, unset, unset, stack,
            ],
            frame: Frame::new(),
        };
        Ok(AbstractState {
            own: Box::new(alloc, own)?,
            called: None,
        })
    }

    /// What is known of the bytes of a frame, if it is live. Frame 0 is the program's own.
    pub fn frame(&self, number: u8) -> Option<&Frame>
        ensures { MatchOption result (frame_of self.now number ≡ None) (λ frame. frame_of self.now number
            ≡ Some frame.now) }
    {
        if number == 0 {
            return Some(&self.own.frame);
        }
        let Some(callees) = &self.called else {
            return None;
        };
        let called: &[Option<Box<Called>>] = &callees.places;
        let at = usize::from(number) - 1;
        if at >= called.len() {
            return None;
        }
        match &called[at] {
            None => None,
            Some(called) => Some(&called.frame),
        }
    }

    /// What is known of a register.
    pub fn register(&self, name: Register) -> AbstractValue
        ensures { result ≡ register self.now name }
    {
        self.own.registers[name.number() as usize]
    }

    /// Sets what is known of a register.
    pub fn set_register(&mut self, name: Register, value: AbstractValue)
        ensures { self.new ≡ with_register self.old name value }
    {
        self.own.registers[name.number() as usize] = value;
    }
}

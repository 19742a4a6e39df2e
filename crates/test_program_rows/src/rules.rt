//! Single instructions, and what is known after them.
use crate::code::code_of;
use crate::values::{value_of, value_text};
use abstract_state::{AbstractState, join_into};
use abstract_values::{AbstractValue, Sides};
use anyhow::Result;
use bpf_image::Lengths;
use bpf_isa::{Register, decode_at};
use std::alloc::{AllocError, Global};
use verifier::{Cause, Onward, step_over};

/// Sets registers to what a list says of them, as `r0 0 to 9, r1 record+0`.
fn set_registers(state: &mut AbstractState, list: &str) {
    for item in list.split(", ") {
        let (name, value) = item.split_once(' ').unwrap_or((item, ""));
        let digits = name.strip_prefix('r').unwrap_or("");
        let number = digits.parse::<u8>().unwrap_or(u8::MAX);
        if let Some(register) = Register::from_number(number) {
            state.set_register(register, value_of(value));
        }
    }
}

/// Goes over instructions, each as if the one before went on with it, up to the first that breaks a rule.
fn over_code(lengths: Lengths, code: &[u8], state: &mut AbstractState) -> Result<Onward, Cause> {
    let mut onward = Onward::Next;
    for pc in 0..code.len() / 8 {
        if let Ok((instruction, _)) = decode_at(code, pc) {
            onward = step_over(lengths, instruction, state)?;
        }
    }
    Ok(onward)
}

/// What is known on one side of a branch.
fn side_text(
    alloc: Global,
    side: Option<(AbstractValue, AbstractValue)>,
) -> Result<String, AllocError> {
    let Some((left, right)) = side else {
        return String::from_str(alloc, "never");
    };
    let left = value_text(alloc, left)?;
    let right = value_text(alloc, right)?;
    format!(in alloc; "{left}, {right}")
}

fn sides_text(alloc: Global, sides: Sides) -> Result<String, AllocError> {
    let taken = side_text(alloc, sides.taken)?;
    let passed = side_text(alloc, sides.passed)?;
    format!(in alloc; "{taken}\n{passed}")
}

/// How it goes on, with what is known of r0 where that is with the next instruction.
fn onward_text(alloc: Global, onward: Onward, state: &AbstractState) -> Result<String, AllocError> {
    match onward {
        Onward::Next => {
            let value = value_text(alloc, state.register(Register::R0))?;
            format!(in alloc; "r0 {value}")
        }
        Onward::Splits(sides) => sides_text(alloc, sides),
        Onward::Ends => String::from_str(alloc, "ends"),
        Onward::Jumps => String::from_str(alloc, "jumps"),
        Onward::Calls => String::from_str(alloc, "calls"),
    }
}

/// Sets the registers that stand after a semicolon, and goes over the program before it.
fn go_on(
    alloc: Global,
    lengths: Lengths,
    state: &mut AbstractState,
    input: &str,
) -> Result<String> {
    let (program, list) = input.split_once("; ").unwrap_or((input, ""));
    set_registers(state, list);
    let code = code_of(alloc, program)?;
    match over_code(lengths, &code, state) {
        Ok(onward) => Ok(onward_text(alloc, onward, state)?),
        Err(cause) => Ok(format!(in alloc; "cause {} {cause:?}", cause as u8)?),
    }
}

/// What comes of instructions where that is known which the entry of a program knows, and what stands after them.
pub(crate) fn stepped(alloc: Global, lengths: Lengths, input: &str) -> Result<String> {
    let mut state = AbstractState::entry(alloc, lengths)?;
    go_on(alloc, lengths, &mut state, input)
}

/// What comes of the instructions of the last line, where two ways meet that have those of the lines before.
pub(crate) fn met(alloc: Global, lengths: Lengths, input: &str) -> Result<String> {
    let (ways, last) = input.split_once("\n=").unwrap_or((input, ""));
    let (one, other) = ways.split_once("\n+").unwrap_or((ways, ""));
    let mut state = AbstractState::entry(alloc, lengths)?;
    let mut beside = AbstractState::entry(alloc, lengths)?;
    go_on(alloc, lengths, &mut state, one)?;
    go_on(alloc, lengths, &mut beside, other)?;
    join_into(&mut state, &beside);
    go_on(alloc, lengths, &mut state, last)
}

//! What may be known of a value, as text: `unset`, `7`, `0 to 9`, `any number`, `record+0 to 4`, `table+8` or
//! `stack[0]-8`.
use abstract_values::AbstractValue;
use std::alloc::{AllocError, Global};

/// The two ends of a range, or twice the one number.
fn ends(text: &str) -> (u64, u64) {
    let (lo, hi) = text.split_once(" to ").unwrap_or((text, text));
    (
        lo.parse::<u64>().unwrap_or(0),
        hi.parse::<u64>().unwrap_or(0),
    )
}

/// An offset in the record or the table.
fn offset(number: u64) -> u16 {
    u16::try_from(number).unwrap_or(0)
}

/// What a text says is known. Any other text says 0.
pub(crate) fn value_of(text: &str) -> AbstractValue {
    if let Some(places) = text.strip_prefix("record+") {
        let (lo, hi) = ends(places);
        return AbstractValue::Record {
            lo: offset(lo),
            hi: offset(hi),
        };
    }
    if let Some(places) = text.strip_prefix("table+") {
        let (lo, hi) = ends(places);
        return AbstractValue::Table {
            lo: offset(lo),
            hi: offset(hi),
        };
    }
    if let Some(place) = text.strip_prefix("stack[") {
        let (frame, offset) = place.split_once(']').unwrap_or((place, ""));
        return AbstractValue::Stack {
            frame: frame.parse::<u8>().unwrap_or(0),
            offset: offset.parse::<i16>().unwrap_or(0),
        };
    }
    let (lo, hi) = match text {
        "unset" => return AbstractValue::Unset,
        "any number" => (0, u64::MAX),
        numbers => ends(numbers),
    };
    AbstractValue::Number { lo, hi }
}

fn range_text(alloc: Global, lo: u64, hi: u64) -> Result<String, AllocError> {
    if lo == hi {
        return format!(in alloc; "{lo}");
    }
    format!(in alloc; "{lo} to {hi}")
}

/// The text that says what is known.
pub(crate) fn value_text(alloc: Global, value: AbstractValue) -> Result<String, AllocError> {
    match value {
        AbstractValue::Unset => String::from_str(alloc, "unset"),
        AbstractValue::Number {
            lo: 0,
            hi: u64::MAX,
        } => String::from_str(alloc, "any number"),
        AbstractValue::Number { lo, hi } => range_text(alloc, lo, hi),
        AbstractValue::Record { lo, hi } => {
            let range = range_text(alloc, u64::from(lo), u64::from(hi))?;
            format!(in alloc; "record+{range}")
        }
        AbstractValue::Table { lo, hi } => {
            let range = range_text(alloc, u64::from(lo), u64::from(hi))?;
            format!(in alloc; "table+{range}")
        }
        AbstractValue::Stack { frame, offset: 0 } => format!(in alloc; "stack[{frame}]+0"),
        AbstractValue::Stack { frame, offset } => format!(in alloc; "stack[{frame}]{offset}"),
    }
}

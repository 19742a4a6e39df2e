//! What is known where two ways meet, of one register.
ghost use Rattle.std.specs.Prelude.{◌≡◌};
ghost use Rattle.abstract_values.specs.Values.{join_of};

use crate::value::AbstractValue;

/// What is known where two ways meet: the least value that says no more than either.
pub fn join(left: AbstractValue, right: AbstractValue) -> AbstractValue
    ensures { result ≡ join_of left right }
{
    match left {
        AbstractValue::Unset => AbstractValue::Unset,
        AbstractValue::Number { lo, hi } => match right {
            AbstractValue::Number { lo: low, hi: high } => AbstractValue::Number {
                lo: lo.min(low),
                hi: hi.max(high),
            },
            _ => AbstractValue::Unset,
        },
        AbstractValue::Record { lo, hi } => match right {
            AbstractValue::Record {
                lo: first,
                hi: last,
            } => AbstractValue::Record {
                lo: lo.min(first),
                hi: hi.max(last),
            },
            _ => AbstractValue::Unset,
        },
        AbstractValue::Stack { frame, offset } => match right {
            AbstractValue::Stack {
                frame: same,
                offset: other,
            } if frame == same && offset == other => left,
            _ => AbstractValue::Unset,
        },
        AbstractValue::Table { lo, hi } => match right {
            AbstractValue::Table {
                lo: first,
                hi: last,
            } => AbstractValue::Table {
                lo: lo.min(first),
                hi: hi.max(last),
            },
            _ => AbstractValue::Unset,
        },
    }
}

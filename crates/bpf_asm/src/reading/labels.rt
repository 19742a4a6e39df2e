//! Labels and the units at which they stand.
ghost use Rattle.std.specs.Prelude.{◌≡◌, ◌≤◌, ◌+◌, nat_lt, Ok, Err, ◌++◌, ◌∷◌, ℕ, List, [], Option, Some, ⊤, if◌then◌else◌, OnOk, IfOk, MatchResult};
ghost use Rattle.std.specs.Str.{bytes_eq};
ghost use Rattle.std.specs.HashMap as hash;
ghost use Rattle.bpf_isa.specs.declared.limits.TheConstants.{MOST_UNITS};
ghost use Rattle.bpf_asm.specs.Assembly.{admission, unless_memory};
ghost use Rattle.bpf_asm.specs.Said.{said_item, IsRead};
ghost use Rattle.bpf_asm.specs.Statements.{Item as SaidItem, Labelled};

use crate::errors::TextCause;
use crate::reading::item::Item;
use bpf_isa::MOST_UNITS;
use std::collections::HashMap;

/// The unit at which a label stands.
pub(crate) fn place_of(labels: &HashMap<&[u8], usize>, name: &[u8]) -> Option<usize>
    ensures { result ≡ hash.get_by (λ k. bytes_eq name.now k.now) labels.now }
{
    labels.get(name).copied()
}

/// Adds a label.
fn add<'a>(
    labels: &mut HashMap<&'a [u8], usize>,
    name: &'a [u8],
    unit: usize,
) -> Result<(), TextCause>
    ensures added { OnOk result ((q : List ℕ) → hash.get_by (λ k. bytes_eq q k.now) labels.new
        ≡ (if bytes_eq name.now q then Some unit else hash.get_by (λ k. bytes_eq q k.now) labels.old)) }
    ensures full { MatchResult result (λ _. ⊤) (λ e. e ≡ TextCause.OutOfMemory) }
{
    match labels.insert(name, unit) {
        Ok(_) => Ok(()),
        Err(_) => Err(TextCause::OutOfMemory),
    }
}

/// Adds a label that no line before has.
fn admit_label<'a>(
    labels: &mut HashMap<&'a [u8], usize>,
    units: usize,
    name: &'a [u8],
) -> Result<(), TextCause>
    ensures admits { MatchResult result
        (λ _. (before : List SaidItem) → IsRead before units (λ q. hash.get_by (λ k. bytes_eq q k.now) labels.old)
        → (admission before (Labelled name.now) ≡ Ok (Labelled name.now))
        × IsRead (before ++ (Labelled name.now ∷ [])) units (λ q. hash.get_by (λ k. bytes_eq q k.now) labels.new))
        (λ cause. (before : List SaidItem) → IsRead before units (λ q. hash.get_by (λ k. bytes_eq q k.now) labels.old)
        → unless_memory cause (admission before (Labelled name.now) ≡ Err cause)) }
{
    if place_of(labels, name).is_some() {
        return Err(TextCause::DoubleLabel);
    }
    match add(labels, name, units) {
        Ok(()) => Ok(()),
        Err(cause) => Err(cause),
    }
}

/// The units with those of one more instruction, if they are not too many.
fn longer(units: usize, more: usize) -> Result<usize, TextCause>
    requires { units ≤ MOST_UNITS }
    ensures exact { result ≡ (if nat_lt MOST_UNITS (units + more) then Err TextCause.TooLong else Ok (units + more)) }
    ensures small { IfOk result (λ n. n ≤ MOST_UNITS) }
{
    if more > MOST_UNITS - units {
        return Err(TextCause::TooLong);
    }
    Ok(units + more)
}

/// Adds what a line says, and gives the units of all code so far.
pub(crate) fn admit<'a>(
    labels: &mut HashMap<&'a [u8], usize>,
    units: usize,
    item: Item<'a>,
) -> Result<usize, TextCause>
    requires { units ≤ MOST_UNITS }
    ensures small { IfOk result (λ n. n ≤ MOST_UNITS) }
    ensures admits { MatchResult result
        (λ n. (before : List SaidItem) → IsRead before units (λ q. hash.get_by (λ k. bytes_eq q k.now) labels.old)
        → (admission before (said_item item.entry) ≡ Ok (said_item item.entry))
        × IsRead (before ++ (said_item item.entry ∷ [])) n (λ q. hash.get_by (λ k. bytes_eq q k.now) labels.new))
        (λ cause. (before : List SaidItem) → IsRead before units (λ q. hash.get_by (λ k. bytes_eq q k.now) labels.old)
        → unless_memory cause (admission before (said_item item.entry) ≡ Err cause)) }
{
    match item {
        Item::Blank => Ok(units),
        Item::Label(name) => match admit_label(labels, units, name) {
            Ok(()) => Ok(units),
            Err(cause) => Err(cause),
        },
        Item::Plain(instruction) => match longer(units, instruction.units()) {
            Ok(units) => Ok(units),
            Err(cause) => Err(cause),
        },
        Item::Goes(_, _) => match longer(units, 1) {
            Ok(units) => Ok(units),
            Err(cause) => Err(cause),
        },
    }
}

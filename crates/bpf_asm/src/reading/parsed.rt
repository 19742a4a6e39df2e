//! All lines of a text, read.
ghost use Rattle.std.specs.Prelude.{◌≡◌, ◌≤◌, ◌++◌, ◌∷◌, ℕ, List, [], map, Ok, Err, IfOk, MatchResult};
ghost use Rattle.std.specs.Str.{bytes_eq};
ghost use Rattle.std.specs.HashMap as hash;
ghost use Rattle.bpf_isa.specs.declared.limits.TheConstants.{MOST_UNITS};
ghost use Rattle.bpf_asm.specs.Assembly.{reading_admission, items as items_of, unless_memory, place, Faults};
ghost use Rattle.bpf_asm.specs.Said.{said_item, IsRead};
ghost use Rattle.bpf_asm.specs.Statements.{item, Item as SaidItem};

use crate::errors::{AssembleError, TextCause};
use crate::reading::item::Item;
use crate::reading::labels::admit;
use crate::reading::line::item_in;
use crate::reading::part::first_part;
use std::alloc::Global;
use std::collections::HashMap;

/// What the lines of a text say, and the units at which its labels stand.
#[derive(Drop)]
pub(crate) struct Parsed<'a> {
    pub(crate) items: Vec<Item<'a>>,
    pub(crate) labels: HashMap<&'a [u8], usize>,
}

/// What a line says after some lines, with the units of all code so far.
fn admitted<'a>(
    labels: &mut HashMap<&'a [u8], usize>,
    units: usize,
    line: &'a [u8],
) -> Result<(Item<'a>, usize), TextCause>
    requires { units ≤ MOST_UNITS }
    ensures small { IfOk result (λ found. found.1 ≤ MOST_UNITS) }
    ensures admits { MatchResult result
        (λ found. (before : List SaidItem) → IsRead before units (λ q. hash.get_by (λ k. bytes_eq q k.now) labels.old)
        → (reading_admission before (item line.now) ≡ Ok (said_item found.0))
        × IsRead (before ++ (said_item found.0 ∷ [])) found.1 (λ q. hash.get_by (λ k. bytes_eq q k.now) labels.new))
        (λ cause. (before : List SaidItem) → IsRead before units (λ q. hash.get_by (λ k. bytes_eq q k.now) labels.old)
        → unless_memory cause (reading_admission before (item line.now) ≡ Err cause)) }
{
    let item = match item_in(line) {
        Ok(item) => item,
        Err(cause) => return Err(cause),
    };
    match admit(labels, units, item) {
        Ok(units) => Ok((item, units)),
        Err(cause) => Err(cause),
    }
}

/// Reads all lines of a text.
pub(crate) fn read_lines(alloc: Global, text: &[u8]) -> Result<Parsed<'_>, AssembleError>
    ensures { MatchResult result
        (λ p. (items_of text.now ≡ Ok (map said_item p.items.items))
        × ((q : List ℕ) → hash.get_by (λ k. bytes_eq q k.now) p.labels ≡ place q (map said_item p.items.items)))
        (λ e. Faults e (items_of text.now)) }
{
    let mut items = Vec::new(alloc);
    let mut labels = HashMap::new(alloc);
    let mut units = 0;
    let mut left = Some(text);
    while let Some(rest) = left {
        let (line, behind) = first_part(rest, b'\n');
        match admitted(&mut labels, units, line) {
            Ok((item, more)) => {
                items.push(item)?;
                units = more;
            }
            Err(cause) => {
                return Err(AssembleError {
                    line: items.len() + 1,
                    cause,
                });
            }
        }
        left = behind;
    }
    Ok(Parsed { items, labels })
}

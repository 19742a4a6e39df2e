//! Pushes: each number goes to the place of its target.
ghost use Rattle.std.specs.Prelude.{◌≡◌, ◌<◌, ◌≤◌, ℕ, length, slice_index, slice_set};
ghost use Rattle.map_model.specs.Pushes.{changed, joined, joint, pushed};

use crate::reduction::Reduction;

/// What two numbers reduce to.
#[inline(always)]
fn join(reduction: Reduction, a: u64, b: u64) -> u64
    ensures { result ≡ joint reduction a b }
{
    match reduction {
        Reduction::Min => a.min(b),
        Reduction::Max => a.max(b),
        Reduction::Sum => a.wrapping_add(b),
    }
}

/// Reduces a number into the place of its target.
#[inline(always)]
fn push_number(reduction: Reduction, values: &mut [u64], target: u32, number: u64)
    requires { target < length values.old }
    ensures { values.new ≡ slice_set values.old target (joint reduction (slice_index values.old target) number) }
{
    let place = target as usize;
    let value = join(reduction, values[place], number);
    values[place] = value;
}

/// Reduces each number into the place of its target, one after another. The values at all other places stay.
pub fn push_numbers(reduction: Reduction, targets: &[u32], numbers: &[u64], values: &mut [u64])
    requires enough { length targets.now ≤ length numbers.now }
    requires inside { (i : ℕ) → i < length targets.now → slice_index targets.now i < length values.old }
    ensures pushed { values.new ≡ pushed reduction targets.now numbers.now values.old }
    ensures long { length values.new ≡ length values.old }
{
    'targets: for at in 0..targets.len() {
        push_number(reduction, values, targets[at], numbers[at]);
    }
}

/// Counts the places at which two slices of one length have different numbers.
pub fn count_changed(before: &[u64], after: &[u64]) -> usize
    requires { length before.now ≡ length after.now }
    ensures { result ≡ changed before.now after.now }
{
    let mut count = 0;
    'places: for at in 0..before.len() {
        if before[at] != after[at] {
            count += 1;
        }
    }
    count
}

/// Reduces another value into each value, at the same place. Returns at how many places the value has changed.
pub fn join_values(reduction: Reduction, values: &mut [u64], others: &[u64]) -> usize
    requires { length values.old ≡ length others.now }
    ensures joined { values.new ≡ joined reduction values.old others.now }
    ensures changed { result ≡ changed values.old values.new }
{
    let mut count = 0;
    'places: for at in 0..values.len() {
        let value = join(reduction, values[at], others[at]);
        if value != values[at] {
            count += 1;
        }
        values[at] = value;
    }
    count
}

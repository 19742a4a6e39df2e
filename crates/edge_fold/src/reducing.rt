//! Numbers that are reduced in parts.
ghost use Rattle.std.specs.Prelude.{◌≡◌, []};
ghost use Rattle.map_model.specs.EdgeMap.{reduction_of_numbers};
ghost use Rattle.edge_fold.specs.Numbers.{combination};

use map_model::Reduction;

/// What numbers reduce to together, of what each of two parts reduces to.
pub fn combine(reduction: Reduction, a: u64, b: u64) -> u64
    ensures { result ≡ combination reduction a b }
{
    match reduction {
        Reduction::Min => a.min(b),
        Reduction::Max => a.max(b),
        Reduction::Sum => a.wrapping_add(b),
    }
}

/// What no numbers reduce to.
pub fn nothing(reduction: Reduction) -> u64
    ensures { result ≡ reduction_of_numbers reduction [] }
{
    match reduction {
        Reduction::Min => u64::MAX,
        Reduction::Max | Reduction::Sum => 0,
    }
}

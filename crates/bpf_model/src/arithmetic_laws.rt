//! The laws of arithmetic. Each function does nothing: its contract is the law.
ghost use Rattle.bpf_model.specs.ArithmeticLaws.{
  DivisionByZero,
  LeastByMinusOne,
  ResultsFit,
  SwapTwice,
  ShiftCountsMasked,
};

/// A quotient by zero is 0, and a remainder by zero is the dividend.
pub fn division_by_zero()
    ensures { DivisionByZero }
{}

/// The least signed number divided by minus one is itself, and leaves no remainder.
pub fn least_by_minus_one()
    ensures { LeastByMinusOne }
{}

/// Results lie in their width: those of 32 bits have a zero upper half.
pub fn results_fit()
    ensures { ResultsFit }
{}

/// A swap done twice is the low part.
pub fn swap_twice()
    ensures { SwapTwice }
{}

/// Shift counts are masked.
pub fn shift_counts_masked()
    ensures { ShiftCountsMasked }
{}

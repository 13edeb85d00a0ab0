//! The ranges of a problem's numbers and the order of its ends, tested one number at a time.
//! A problem is built behind these tests, and whoever refuses a number asks the same ones.
ghost use Rattle.problems.specs.Ranges.{in_order, in_reach};
ghost use Rattle.problems.specs.Whole.{within};
ghost use Rattle.std.specs.Prelude.{◌≡◌, not, ◌&&◌, int_le};

use super::quantity::{RowEnds, Span};

/// The largest size of a coefficient.
pub const COEFFICIENT: u64 = 100;

/// The largest size of a variable's end.
pub const VARIABLE_END: u64 = 100_000;

/// The largest size of a row's end.
pub const ROW_END: u64 = 200_000_000;

// Three tests of one comparison each: a single test that took the limit would be no shorter at its calls.

/// Whether a coefficient is in its range.
pub fn is_coefficient(a: i64) -> bool
    ensures value { result ≡ within 100 a }
{
    a.unsigned_abs() <= COEFFICIENT
}

/// Whether an end of a variable is in its range.
pub fn is_variable_end(z: i64) -> bool
    ensures value { result ≡ within 100000 z }
{
    z.unsigned_abs() <= VARIABLE_END
}

/// Whether an end of a row is absent or in its range.
pub fn is_row_end(end: Option<i64>) -> bool
    ensures value { result ≡ in_reach end }
{
    end.is_none_or(|z| z.unsigned_abs() <= ROW_END)
}

impl Span {
    /// Whether both ends are in their range.
    pub fn in_range(self) -> bool
        ensures value { result ≡ (within 100000 self.lower && within 100000 self.upper) }
    {
        is_variable_end(self.lower) && is_variable_end(self.upper)
    }

    /// Whether the lower end is above the upper end.
    pub fn crosses(self) -> bool
        ensures value { result ≡ not (int_le self.lower self.upper) }
    {
        self.lower > self.upper
    }
}

impl RowEnds {
    /// Whether both ends are present and the lower end is above the upper end.
    pub fn cross(self) -> bool
        ensures value { result ≡ not (in_order self.lower self.upper) }
    {
        self.lower
            .zip(self.upper)
            .is_some_and(|(lower, upper)| lower > upper)
    }
}

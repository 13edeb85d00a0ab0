//! The table of ends: those of the variables and those of the rows.
ghost use Rattle.std.specs.Prelude.{◌≡◌, ◌≤◌, true, length, take};
ghost use Rattle.problems.specs.Ranges.{row_ends_proper};

use super::quantity::{MOST, RowEnds};
use super::vars::Vars;

/// The ends of one variable or more, and of the first `m` rows.
// A fixed table with its count, as in `Vars`.
#[derive(Clone, Copy)]
pub struct Ends {
    pub(crate) vars: Vars,
    pub(crate) rows: [RowEnds; MOST],
    pub(crate) m: usize,
    ghost some: { 1 ≤ vars.n },
    ghost few: { m ≤ 12 },
    ghost long: { length rows ≡ 12 },
    ghost proper: { row_ends_proper (take m rows) ≡ true },
}

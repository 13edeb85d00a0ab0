//! A problem: the rows and a box, which fit together by their type.
ghost use Rattle.problems.specs.Ranges.{coefs_of, rows_proper};
ghost use Rattle.std.specs.Prelude.{◌≡◌, true, map, length};

use super::ends::Ends;
use super::quantity::{MOST, Row};

/// The rows' coefficients and the ends of all quantities.
// A row's coefficients and its ends stand apart: the ends belong to the box, which a split changes, and the
// coefficients stay. Both tables are fixed, as in `Vars`; the count stands with the ends.
#[derive(Clone, Copy)]
pub struct Problem {
    pub(crate) rows: [Row; MOST],
    pub(crate) ends: Ends,
    ghost long: { length rows ≡ 12 },
    ghost proper: { rows_proper 12 (map coefs_of rows) ≡ true },
}

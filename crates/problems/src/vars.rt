//! The ends of the variables: no lower end is above its upper end, and every end is in range.
ghost use Rattle.std.specs.Prelude.{◌≡◌, ◌≤◌, true, length, take};
ghost use Rattle.problems.specs.Ranges.{spans_proper};

use super::quantity::{MOST, Span};

/// The ends of the first `n` variables.
// A fixed table with its count: nothing here takes the heap, and the kit's `ArrayVec` is neither `Copy` nor
// made in a constant, and what is kept on a stack in lent memory must be both.
#[derive(Clone, Copy)]
pub struct Vars {
    pub(crate) spans: [Span; MOST],
    pub(crate) n: usize,
    ghost few: { n ≤ 12 },
    ghost long: { length spans ≡ 12 },
    ghost proper: { spans_proper (take n spans) ≡ true },
}

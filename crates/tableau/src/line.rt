//! The lines of a tableau.
use problems::quantity::QUANTITIES;

/// An equation: 0 is the sum of number × quantity, with -d at the basic quantity, a at each nonbasic one and 0 at the
/// other basic ones. What stands past the last quantity means nothing.
// A fixed table: nothing here takes the heap.
#[derive(Clone, Copy, PartialEq, Eq, Debug)]
pub struct Line {
    pub basic: usize,
    pub nums: [i64; QUANTITIES],
}

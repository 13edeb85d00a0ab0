//! A leaf: the reason why a box has no plan, small enough to be checked by hand.
use problems::quantity::QUANTITIES;

/// Either kind of leaf.
#[derive(Clone, Copy, PartialEq, Eq, Debug)]
pub enum Leaf {
    /// A whole multiplier for each quantity; what stands past the last one means nothing.
    /// A fixed table, as nothing here takes the heap.
    Sum([i64; QUANTITIES]),
    /// A row, counted from 0, and a divisor that leaves its ends no multiple.
    Divisor { row: usize, g: usize },
}

//! What a tester says of a box.
use super::leaf::Leaf;
use problems::quantity::MOST;

/// One of the three answers.
#[derive(Clone, Copy, PartialEq, Eq, Debug)]
pub enum Answer {
    /// The box has no plan, and the leaf says why.
    Empty(Leaf),
    /// A plan of the box: a number for each variable; what stands past the last one means nothing.
    /// A fixed table, as nothing here takes the heap.
    Point([i64; MOST]),
    /// A variable, counted from 0, and a number k: the box falls into the half up to k and the half above.
    Split((usize, i64)),
}

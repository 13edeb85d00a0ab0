//! What a search tells.
use super::uses::Uses;
use problems::quantity::MOST;

/// The word of the answer, with what belongs to it.
#[derive(Clone, Copy, PartialEq, Eq, Debug)]
pub enum Verdict {
    /// A plan of the box: a number for each variable; what stands past the last one means nothing.
    // A fixed table: nothing here takes the heap.
    Plan([i64; MOST]),
    /// The box has no plan; these of its ends were used that no split replaced.
    None(Uses),
    /// The budget is used up and a box still waits.
    Spent,
}

/// An answer: its word, the boxes tested, the record bytes written, and how many places of the path were used.
#[derive(Clone, Copy, PartialEq, Eq, Debug)]
pub struct Found {
    pub verdict: Verdict,
    pub boxes: usize,
    pub bytes: usize,
    pub deepest: usize,
}

//! What a run of pivots goes by: the quantity that is outside its ends, the next step, and how a run stops.
use problems::quantity::Side;

/// A basic quantity outside its ends: the place of its line, its number, and the end that it violates.
#[derive(Clone, Copy, PartialEq, Eq, Debug)]
pub struct Violation {
    pub place: usize,
    pub basic: usize,
    pub side: Side,
}

/// What one look at the tableau finds: every quantity within its ends, one that none can help, or two to exchange.
// Three ways to go on: not one value or its lack, and not a value or an error.
#[derive(Clone, Copy, PartialEq, Eq, Debug)]
pub enum Step {
    Standing,
    Stuck(Violation),
    Turn(Violation, usize),
}

/// How a run of pivots stops.
// Three ways to go on: not one value or its lack, and not a value or an error.
#[derive(Clone, Copy, PartialEq, Eq, Debug)]
pub enum Stop {
    Stands,
    Fails(Violation),
    GaveWay,
}

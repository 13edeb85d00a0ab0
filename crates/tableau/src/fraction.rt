//! The value of a quantity.

/// num / den.
#[derive(Clone, Copy, PartialEq, Eq, Debug)]
pub struct Fraction {
    pub num: i64,
    pub den: i64,
}

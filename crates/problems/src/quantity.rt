//! What every part of the planner speaks of: quantities and their ends.
//! Quantities are numbered variables first, then rows.
ghost use Rattle.std.specs.Prelude.{◌≡◌, Some};

/// At most so many variables, and at most so many rows.
pub const MOST: usize = 12;

/// At most so many quantities.
pub const QUANTITIES: usize = 24;

/// One of the two ends of a quantity.
#[derive(Clone, Copy, PartialEq, Eq, Debug)]
pub enum Side {
    Lower,
    Upper,
}

/// The two ends of a variable.
#[derive(Clone, Copy, PartialEq, Eq, Debug)]
pub struct Span {
    pub lower: i64,
    pub upper: i64,
}

impl Span {
    // The point 0, which also stands where there is no variable.
    pub(crate) const NOWHERE: Span = Span { lower: 0, upper: 0 };
}

/// The two ends of a row; either may be absent.
#[derive(Clone, Copy, PartialEq, Eq, Debug)]
pub struct RowEnds {
    pub lower: Option<i64>,
    pub upper: Option<i64>,
}

impl RowEnds {
    /// Neither end.
    pub const FREE: RowEnds = RowEnds {
        lower: None,
        upper: None,
    };
}

/// The ends of a variable as those of a row, both present.
impl From<Span> for RowEnds {
    ghost from_gives = { λ s e. e ≡ record { lower = Some s.lower; upper = Some s.upper } };

    fn from(span: Span) -> RowEnds {
        RowEnds {
            lower: Some(span.lower),
            upper: Some(span.upper),
        }
    }
}

/// The coefficients of a row; what stands past the last variable means nothing.
// A fixed table, since nothing here takes the heap; the problem knows how many variables there are.
#[derive(Clone, Copy, PartialEq, Eq, Debug)]
pub struct Row {
    pub coefs: [i64; MOST],
}

//! Refusals: a call that is refused tells a number and a place, and changes nothing.
ghost use Rattle.problems.specs.Refusals.{number};
ghost use Rattle.std.specs.Prelude.{◌≡◌};

/// Why a call is refused; the number of each case is what the caller is told.
#[derive(Clone, Copy, PartialEq, Eq, Debug)]
pub enum Refusal {
    /// The number of variables is not 1..12, or a list has another length.
    Length = 1,
    /// No such quantity.
    Quantity = 2,
    /// A number is out of its range.
    Range = 3,
    /// A lower end would be above its upper end.
    Cross = 4,
    /// All coefficients are as in an earlier row.
    Repeat = 5,
    /// The end is not strictly narrower than the one that stands.
    NotNarrower = 6,
    /// One more row, setting or mark than there is room for.
    Full = 7,
    /// All numbers have been given.
    NumbersGone = 8,
    /// No mark stands.
    NoMark = 9,
    /// The budget is not 1..10,000.
    Budget = 10,
    /// A buffer is too small.
    Buffer = 11,
    /// The bytes end before the entry does.
    BytesEnd = 12,
    /// A tag, a field, a map or a split that no entry can have.
    Malformed = 13,
    /// A leaf that is not lawful.
    Unlawful = 14,
    /// A split below too many others.
    TooDeep = 15,
    /// Bytes after the tree.
    BytesLeft = 16,
}

/// A refusal, and the place that it is about.
#[derive(Clone, Copy, PartialEq, Eq, Debug)]
pub struct Refused {
    pub why: Refusal,
    pub place: i64,
}

impl Refused {
    /// The number of the refusal, 1 to 16.
    pub fn number(&self) -> u8
        ensures { result ≡ number self.now.why }
    {
        self.why as u8
    }
}

//! The ends that a refutation rests on.
ghost use Rattle.search.specs.Search.{unused};
ghost use Rattle.search.specs.Shown.{side_in, uses_of};
ghost use Rattle.std.specs.Prelude.{◌≡◌, ◌&&◌, ◌||◌};
ghost use Rattle.problems.specs.declared.quantity.Side.{Side};

use problems::quantity::MOST;
use std::ops::{BitAnd, BitOr};

/// Which of a quantity's two ends.
#[derive(Clone, Copy, PartialEq, Eq, Debug)]
pub struct Sides {
    pub lower: bool,
    pub upper: bool,
}

impl Sides {
    pub(crate) const NEITHER: Sides = Sides {
        lower: false,
        upper: false,
    };

    pub(crate) const BOTH: Sides = Sides {
        lower: true,
        upper: true,
    };
}

/// The ends that both have.
impl BitAnd for Sides {
    type Output = Sides;

    ghost bitand_gives = { λ a b c. (side : Side) → side_in side c ≡ (side_in side a && side_in side b) };

    fn bitand(self, other: Sides) -> Sides {
        Sides {
            lower: self.lower && other.lower,
            upper: self.upper && other.upper,
        }
    }
}

/// The ends that at least one of the two has.
impl BitOr for Sides {
    type Output = Sides;

    ghost bitor_gives = { λ a b c. (side : Side) → side_in side c ≡ (side_in side a || side_in side b) };

    fn bitor(self, other: Sides) -> Sides {
        Sides {
            lower: self.lower || other.lower,
            upper: self.upper || other.upper,
        }
    }
}

/// For each variable and each row, which of its ends is used.
// Fixed tables: nothing here takes the heap.
#[derive(Clone, Copy, PartialEq, Eq, Debug)]
pub struct Uses {
    pub vars: [Sides; MOST],
    pub rows: [Sides; MOST],
}

impl Uses {
    /// No end: a derived `Default` has no contract.
    pub fn none() -> Uses
        ensures { uses_of result ≡ unused }
    {
        Uses {
            vars: [Sides::NEITHER; MOST],
            rows: [Sides::NEITHER; MOST],
        }
    }
}

//! Open splits: the boxes on the way to the one at hand whose upper half is still to be tested.
ghost use Rattle.problems.specs.Blank.{no_vars};
ghost use Rattle.std.specs.Prelude.{◌≡◌, pos};

use lent::entry::Entry;
use problems::vars::Vars;

/// A split, and the variables' ends of the box that it splits.
#[derive(Clone, Copy)]
pub struct OpenSplit {
    /// A variable, counted from 0, and the number at which it is split.
    pub cut: (usize, i64),
    pub vars: Vars,
}

impl Entry for OpenSplit {
    const BLANK: OpenSplit = OpenSplit {
        cut: (0, 0),
        vars: Vars::NONE,
    };

    ghost BLANK = { record { cut = (0, pos 0); vars = no_vars } };
}

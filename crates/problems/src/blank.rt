//! No variables: what stands in memory that holds none.
ghost use Rattle.problems.specs.Blank.{no_vars};
ghost use Rattle.std.specs.Prelude.{◌≡◌};

use super::quantity::{MOST, Span};
use super::vars::Vars;

impl Vars {
    /// All zeros.
    pub const NONE: Vars = Vars {
        spans: [Span::NOWHERE; MOST],
        n: 0,
    };

    /// The same: a constant has no contract, so this tells its value.
    pub fn none() -> Vars
        ensures { result ≡ no_vars }
    {
        Vars::NONE
    }
}

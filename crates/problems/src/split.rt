//! The two halves of a box, and putting one in its place.
ghost use Rattle.std.specs.Option.{option_map};
ghost use Rattle.std.specs.Prelude.{◌≡◌, ◌<◌, ◌&&◌, length, pos, ◌+ℤ◌, ◌<ℤ◌, if◌then◌else◌, Some, None, true, ◌==◌, int_le, int_lt, slice_index_or, slice_set};
ghost use Rattle.problems.specs.Box.{high, low, nowhere, splits, with_vars};
ghost use Rattle.problems.specs.Ranges.{spans_proper};
ghost use Rattle.problems.specs.View.{box_of, rows_of, vars_in};

use super::problem::Problem;
use super::quantity::Span;
use super::vars::Vars;

impl Span {
    // lower end ≤ k < upper end
    fn splits_at(self, cut: (usize, i64)) -> bool
        ensures { result ≡ (int_le self.lower cut.1 && int_lt cut.1 self.upper) }
    {
        self.lower <= cut.1 && cut.1 < self.upper
    }

    // The part up to k.
    fn upto(self, cut: (usize, i64)) -> Span
        ensures { result ≡ record { lower = self.lower; upper = cut.1 } }
    {
        Span {
            lower: self.lower,
            upper: cut.1,
        }
    }

    // The part above k.
    fn above(self, cut: (usize, i64)) -> Span
        requires { cut.1 <ℤ self.upper }
        ensures { result ≡ record { lower = cut.1 +ℤ pos 1; upper = self.upper } }
    {
        Span {
            lower: cut.1 + 1,
            upper: self.upper,
        }
    }
}

impl Vars {
    // The ends of the variable that is cut; none unless lower end ≤ k < upper end.
    fn cut_span(&self, cut: (usize, i64)) -> Option<Span>
        ensures { result ≡ (if splits cut.0 cut.1 (vars_in self.now) then Some (slice_index_or (vars_in self.now) cut.0 nowhere) else None) }
    {
        let span = self.spans().get(cut.0)?;
        span.splits_at(cut).then_some(*span)
    }

    // The same ends, but these for variable v.
    fn with(&self, v: usize, span: Span) -> Vars
        requires within { v < self.now.n }
        requires proper { spans_proper (slice_set (vars_in self.now) v span) ≡ true }
        ensures { vars_in result ≡ slice_set (vars_in self.now) v span }
    {
        let mut spans = self.spans;
        spans[v] = span;
        Vars { spans, n: self.n }
    }

    /// The half in which the variable is at most k; none unless lower end ≤ k < upper end.
    pub fn below(&self, cut: (usize, i64)) -> Option<Vars>
        ensures { option_map vars_in result ≡ (if splits cut.0 cut.1 (vars_in self.now) then Some (low cut.0 cut.1 (vars_in self.now)) else None) }
    {
        let span = self.cut_span(cut)?;
        Some(self.with(cut.0, span.upto(cut)))
    }

    /// The half in which the variable is above k; none unless lower end ≤ k < upper end.
    pub fn above(&self, cut: (usize, i64)) -> Option<Vars>
        ensures { option_map vars_in result ≡ (if splits cut.0 cut.1 (vars_in self.now) then Some (high cut.0 cut.1 (vars_in self.now)) else None) }
    {
        let span = self.cut_span(cut)?;
        Some(self.with(cut.0, span.above(cut)))
    }
}

impl Problem {
    /// The ends of the variables, to be put back later.
    pub fn saved(&self) -> Vars
        ensures { result ≡ self.now.ends.vars }
    {
        let ends = &self.ends;
        ends.vars
    }

    /// Puts these in the place of the variables' ends; false, and nothing changes, for another number of variables.
    pub fn put_vars(&mut self, vars: Vars) -> bool
        ensures value { result ≡ (length (vars_in vars) == length (box_of self.old).vars) }
        ensures rows { rows_of self.new ≡ rows_of self.old }
        ensures ends { box_of self.new ≡ (if result then with_vars (vars_in vars) (box_of self.old) else box_of self.old) }
    {
        if vars.n != self.ends.vars.n {
            return false;
        }
        self.ends.vars = vars;
        true
    }
}

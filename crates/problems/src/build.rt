//! How a problem is made: from its variables, and row by row.
ghost use Rattle.std.specs.Prelude.{◌≡◌, ◌+◌, ◌<◌, ◌≤◌, true, [], ◌∷◌, ◌++◌, length, take, if◌then◌else◌, Some, None};
ghost use Rattle.std.specs.Option.{option_map};
ghost use Rattle.problems.specs.Ranges.{ends_proper, span_proper, spans_proper};
ghost use Rattle.problems.specs.Stated.{may_add, may_vary, one_point, stated, with_row, without_rows};
ghost use Rattle.problems.specs.Whole.{all_within};

use super::ends::Ends;
use super::problem::Problem;
use super::quantity::{MOST, Row, RowEnds, Span};
use super::ranges::{is_coefficient, is_row_end};
use super::table::padded;
use super::vars::Vars;

impl Problem {
    /// One variable, 0..0, and no row.
    pub fn first() -> Problem
        ensures value { stated result ≡ one_point }
    {
        rowless(&[Span::NOWHERE])
    }

    /// These variables and no row; none unless there are 1 to 12 of them, each with its ends in order and in range.
    pub fn over(spans: &[Span]) -> Option<Problem>
        ensures value { option_map stated result ≡ (if may_vary spans.now then Some (without_rows spans.now) else None) }
    {
        if spans.is_empty() || spans.len() > MOST || !all_proper(spans) {
            return None;
        }
        Some(rowless(spans))
    }

    /// Adds a row at the end. False, and nothing changes, unless there are fewer than 12 rows, a coefficient for each
    /// variable, every number in its range, and the ends in order.
    pub fn add_row(&mut self, coefs: &[i64], ends: RowEnds) -> bool
        ensures value { result ≡ may_add coefs.now ends (stated self.old) }
        ensures after { stated self.new ≡ (if result then with_row coefs.now ends (stated self.old) else stated self.old) }
    {
        let fits = self.fits(coefs, ends);
        if fits {
            self.push_row(coefs, ends);
        }
        fits
    }
}

impl Problem {
    // Whether the row may be added.
    fn fits(&self, coefs: &[i64], ends: RowEnds) -> bool
        ensures { result ≡ may_add coefs.now ends (stated self.now) }
    {
        self.rows() < MOST
            && coefs.len() == self.variables()
            && all_coefficients(coefs)
            && ends.is_proper()
    }

    // Writes the row behind the others.
    fn push_row(&mut self, coefs: &[i64], ends: RowEnds)
        requires { may_add coefs.now ends (stated self.old) ≡ true }
        ensures { stated self.new ≡ with_row coefs.now ends (stated self.old) }
    {
        self.rows[self.ends.m] = Row {
            coefs: padded(coefs, 0),
        };
        self.ends.push(ends);
    }
}

impl Ends {
    // Puts the ends of one more row behind the others.
    fn push(&mut self, ends: RowEnds)
        requires room { self.old.m < 12 }
        requires proper { ends_proper ends ≡ true }
        ensures vars { self.new.vars ≡ self.old.vars }
        ensures rows { take self.new.m self.new.rows ≡ take self.old.m self.old.rows ++ (ends ∷ []) }
        ensures count { self.new.m ≡ self.old.m + 1 }
    {
        self.rows[self.m] = ends;
        self.m += 1;
    }
}

// What stands in a row that holds none.
const NO_ROW: Row = Row { coefs: [0; MOST] };

// These variables and no row.
fn rowless(spans: &[Span]) -> Problem
    requires some { 1 ≤ length spans.now }
    requires few { length spans.now ≤ 12 }
    requires proper { spans_proper spans.now ≡ true }
    ensures { stated result ≡ without_rows spans.now }
{
    let vars = Vars {
        spans: padded(spans, Span::NOWHERE),
        n: spans.len(),
    };
    Problem {
        rows: [NO_ROW; MOST],
        ends: Ends {
            vars,
            rows: [RowEnds::FREE; MOST],
            m: 0,
        },
    }
}

impl Span {
    // Whether the ends are in order and in range.
    fn is_proper(self) -> bool
        ensures { result ≡ span_proper self }
    {
        !self.crosses() && self.in_range()
    }
}

impl RowEnds {
    // Whether the ends are in order and in range.
    fn is_proper(self) -> bool
        ensures { result ≡ ends_proper self }
    {
        !self.cross() && is_row_end(self.lower) && is_row_end(self.upper)
    }
}

// Whether the ends of every variable are in order and in range.
fn all_proper(spans: &[Span]) -> bool
    ensures { result ≡ spans_proper spans.now }
{
    spans.iter().all(|span| span.is_proper())
}

// Whether every coefficient is in its range.
fn all_coefficients(coefs: &[i64]) -> bool
    ensures { result ≡ all_within 100 coefs.now }
{
    coefs.iter().all(|a| is_coefficient(*a))
}

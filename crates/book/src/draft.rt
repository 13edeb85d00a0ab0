//! Drafting a problem: the caller holds the draft, and opens it when it is done.
ghost use Rattle.std.specs.Prelude.{◌≡◌, ◌≤◌};
ghost use Rattle.book.specs.Draft.{EveryDraftIsProper, begun, crossed, held, large, miscounted, new_faults, out_of_range, row_added, row_faults, same_row};
ghost use Rattle.book.specs.Fault.{each, judged};
ghost use Rattle.problems.specs.Stated.{one_point, stated};
ghost use Rattle.problems.specs.View.{rows_of};
ghost use Rattle.problems.specs.declared.refusal.Refusal.TheVariants.{Cross, Range, Repeat};

use super::fault::{refuse_at, refuse_first, refuse_if};
use problems::problem::Problem;
use problems::quantity::{MOST, RowEnds, Span};
use problems::ranges::{is_coefficient, is_row_end};
use problems::refusal::{Refusal, Refused};

/// A problem in the making.
#[derive(Drop)]
pub struct Draft {
    problem: Problem,
}

impl Draft {
    /// The draft to begin with: one variable, 0..0, and no row.
    pub fn first() -> Draft
        ensures value { held result ≡ one_point }
    {
        Draft {
            problem: Problem::first(),
        }
    }

    /// Begins afresh with n variables, from the ends of each.
    pub fn new(&mut self, n: i64, ends: &[Span]) -> Result<(), Refused>
        ensures value { result ≡ (begun (held self.old) n ends.now).reply }
        ensures after { held self.new ≡ (begun (held self.old) n ends.now).draft }
    {
        check_new(n, ends)?;
        // What has passed may be built, so there is always one.
        if let Some(problem) = Problem::over(ends) {
            self.problem = problem;
        }
        Ok(())
    }

    /// Adds a row with its ends, and tells the number of the row's quantity, counted from 1.
    pub fn add_row(&mut self, coefs: &[i64], ends: RowEnds) -> Result<usize, Refused>
        ensures value { result ≡ (row_added (held self.old) coefs.now ends).reply }
        ensures after { held self.new ≡ (row_added (held self.old) coefs.now ends).draft }
    {
        check_row(&self.problem, coefs, ends)?;
        self.problem.add_row(coefs, ends);
        Ok(self.problem.variables() + self.problem.rows())
    }

    /// The problem as it is drafted.
    pub fn open(self) -> Problem
        ensures value { stated result ≡ held self }
        ensures proper { EveryDraftIsProper }
    {
        let Draft { problem } = self;
        problem
    }
}

// Whether n is not 1..12, or the ends are not n pairs.
fn is_miscounted(n: i64, spans: &[Span]) -> bool
    ensures { result ≡ miscounted n spans.now }
{
    n < 1 || n > MOST as i64 || usize::try_from(n) != Ok(spans.len())
}

// Refuses what `new` refuses.
fn check_new(n: i64, spans: &[Span]) -> Result<(), Refused>
    ensures { result ≡ judged (new_faults n spans.now) }
{
    refuse_if(is_miscounted(n, spans), Refusal::Length, 0)?;
    refuse_first(spans, |span| !span.in_range(), Refusal::Range)?;
    refuse_first(spans, |span| span.crosses(), Refusal::Cross)
}

// Refuses coefficients that an earlier row has.
fn check_repeats(problem: &Problem, coefs: &[i64]) -> Result<(), Refused>
    ensures { result ≡ judged (each (same_row coefs.now) Repeat 1 (rows_of problem.now)) }
{
    refuse_at(
        (0..problem.rows()).position(|i| coefs == problem.coefs(i)),
        Refusal::Repeat,
    )
}

// Refuses what `add_row` refuses.
fn check_row(problem: &Problem, coefs: &[i64], ends: RowEnds) -> Result<(), Refused>
    ensures { result ≡ judged (row_faults (stated problem.now) coefs.now ends) }
{
    let n = problem.variables();
    let m = problem.rows();
    refuse_if(coefs.len() != n, Refusal::Length, 0)?;
    refuse_first(coefs, |a| !is_coefficient(*a), Refusal::Range)?;
    refuse_if(!is_row_end(ends.lower), Refusal::Range, n + 1)?;
    refuse_if(!is_row_end(ends.upper), Refusal::Range, n + 2)?;
    refuse_if(ends.cross(), Refusal::Cross, n + m + 1)?;
    check_repeats(problem, coefs)?;
    refuse_if(m >= MOST, Refusal::Full, MOST)
}

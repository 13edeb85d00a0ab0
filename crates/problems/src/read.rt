//! Reading a problem.
ghost use Rattle.std.specs.Prelude.{◌≡◌, ◌≤◌, List, [], length, take, slice_index_or};
ghost use Rattle.problems.specs.View.{box_of, rows_of, vars_in};

use super::problem::Problem;
use super::quantity::{Row, RowEnds, Span};
use super::vars::Vars;

// The first n of the row's coefficients.
fn front(row: &Row, n: usize) -> &[i64]
    requires { n ≤ length row.now.coefs }
    ensures { result.now ≡ take n row.now.coefs }
{
    &row.coefs[0..n]
}

impl Vars {
    /// The ends of each variable.
    pub fn spans(&self) -> &[Span]
        ensures { result.now ≡ vars_in self.now }
    {
        &self.spans[0..self.n]
    }
}

impl Problem {
    /// The ends of each variable.
    pub fn vars(&self) -> &[Span]
        ensures { result.now ≡ (box_of self.now).vars }
    {
        self.ends.vars.spans()
    }

    /// The ends of each row.
    pub fn row_ends(&self) -> &[RowEnds]
        ensures { result.now ≡ (box_of self.now).rows }
    {
        &self.ends.rows[0..self.ends.m]
    }

    /// The coefficients of row i, counted from 0; none where there is no such row.
    pub fn coefs(&self, i: usize) -> &[i64]
        ensures { result.now ≡ slice_index_or (rows_of self.now) i [] }
    {
        if i < self.ends.m {
            front(&self.rows[i], self.ends.vars.n)
        } else {
            &[]
        }
    }

    /// How many variables there are.
    pub fn variables(&self) -> usize
        ensures value { result ≡ length (box_of self.now).vars }
    {
        self.vars().len()
    }

    /// How many rows there are.
    pub fn rows(&self) -> usize
        ensures value { result ≡ length (rows_of self.now) }
    {
        self.row_ends().len()
    }
}

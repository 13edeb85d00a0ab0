//! The halving tester: a row check, and a middle split where that finds nothing. It needs no memory
//! and has an answer at once, so other testers can fall back on it.
ghost use Rattle.std.specs.Prelude.{◌≡◌, ◌-◌, ◌++◌, length, replicate, slice_index_or, take, pos};
ghost use Rattle.testers.specs.Halving.{all_fixed, halving, lowers};
ghost use Rattle.testers.specs.Leaf.{fixed};
ghost use Rattle.problems.specs.View.{box_of, rows_of};
ghost use Rattle.testers.specs.Told.{answer_of};
ghost use Rattle.testers.specs.Halves.{halving_laws};

use super::answer::Answer;
use super::middle::middle_split;
use super::row_check::row_check;
use super::tester::Tester;
use problems::problem::Problem;
use problems::quantity::{MOST, Span};
use std::array;

/// Whether both ends of the variable are equal.
pub fn is_fixed(s: Span) -> bool
    ensures value { result ≡ fixed s }
{
    s.lower == s.upper
}

/// Whether both ends of every variable are equal.
pub fn all_fixed(problem: &Problem) -> bool
    ensures { result ≡ all_fixed (box_of problem.now).vars }
{
    problem.vars().iter().all(|s| is_fixed(*s))
}

// The lower end of variable v, and 0 past the last one.
fn lower_at(vars: &[Span], v: usize) -> i64
    ensures { result ≡ slice_index_or (lowers vars.now) v (pos 0) }
{
    vars.get(v).map_or(0, |s| s.lower)
}

/// The lower ends, with 0 past the last variable; those that find no place are left out.
pub fn lowers<const N: usize>(vars: &[Span]) -> [i64; N]
    ensures value { result ≡ take N (lowers vars.now) ++ replicate (N - length vars.now) (pos 0) }
{
    array::from_fn(|v| lower_at(vars, v))
}

/// The answer of the halving tester.
pub fn halve(problem: &Problem) -> Answer
    ensures { answer_of problem.now result ≡ halving (rows_of problem.now) (box_of problem.now) }
{
    if let Some(leaf) = row_check(problem) {
        Answer::Empty(leaf)
    } else if all_fixed(problem) {
        Answer::Point(lowers(problem.vars()))
    } else {
        Answer::Split(middle_split(problem))
    }
}

/// The tester that halves.
#[derive(Clone, Copy)]
pub struct Halving;

impl Tester for Halving {
    ghost meaning = { λ _. halving };

    ghost lawful = { λ t. halving_laws };

    fn test(&mut self, problem: &Problem) -> Answer {
        halve(problem)
    }
}

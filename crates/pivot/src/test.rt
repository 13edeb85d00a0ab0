//! A test by pivots: general simplex on tableaux of whole numbers.
//!
//! No fraction is needed: a nonbasic quantity always sits at one of its ends, so the value of a basic one is a whole
//! number over the d of its line.
ghost use Rattle.std.specs.Prelude.{◌≡◌, ◌+◌, map, length};
ghost use Rattle.tableau.specs.Pivot.{concluded, pivot};
ghost use Rattle.pivot.specs.Shapes.{seen, shown};
ghost use Rattle.tableau.specs.Sound.{EveryTableauSound, Solved};
ghost use Rattle.tableau.specs.Tableau.{run as runs, run_on};
ghost use Rattle.problems.specs.View.{box_of, rows_of};
ghost use Rattle.testers.specs.Told.{answer_of};

use super::board::Board;
use super::start::{all_ends, first_lines};
use problems::problem::Problem;
use problems::quantity::QUANTITIES;
use tableau::run::Stop;
use testers::answer::Answer;
use testers::halving::{all_fixed, halve, lowers};
use testers::leaf::Leaf;
use testers::middle::middle_split;

// What the run from this board comes to.
fn conclude(problem: &Problem, limit: u32, board: &mut Board) -> Answer
    requires solved { Solved (map (seen (length board.old.values.now)) board.old.lines.now) }
    requires all { length board.old.values.now ≡ length (box_of problem.now).vars + length (rows_of problem.now) }
    ensures { answer_of problem.now result ≡ concluded (box_of problem.now) (runs limit board.old.ends.now (length board.old.values.now) (shown (length board.old.values.now) board.old.values.now board.old.lines.now)) }
{
    match board.run(limit) {
        Stop::GaveWay => Answer::Split(middle_split(problem)),
        Stop::Fails(f) => Answer::Empty(Leaf::Sum(board.refute(f.place, f.side))),
        Stop::Stands => board.settle(problem.variables()),
    }
}

// What the run from the start comes to.
fn by_pivots(problem: &Problem, limit: u32) -> Answer
    ensures { answer_of problem.now result ≡ concluded (box_of problem.now) (run_on limit (rows_of problem.now) (box_of problem.now)) }
{
    let m = problem.rows();
    let k = problem.variables() + m;
    let ends = all_ends(problem.vars(), problem.row_ends());
    let mut values = lowers::<QUANTITIES>(problem.vars());
    let mut lines = first_lines(problem);
    let mut board = Board {
        lines: &mut lines[0..m],
        values: &mut values[0..k],
        ends: &ends[0..k],
    };
    conclude(problem, limit, &mut board)
}

// The answer of the pivot tester.
fn answer_within(problem: &Problem, limit: u32) -> Answer
    ensures { answer_of problem.now result ≡ pivot limit (rows_of problem.now) (box_of problem.now) }
{
    if all_fixed(problem) {
        halve(problem)
    } else {
        by_pivots(problem, limit)
    }
}

/// The answer of the pivot tester with the given pivot limit. Every tableau on the way is sound: its lines hold at
/// exactly the points where the rows' definitions do, each is reduced, and each nonbasic quantity sits at a present end.
pub fn test_by_pivots(problem: &Problem, limit: u32) -> Answer
    ensures answer { answer_of problem.now result ≡ pivot limit (rows_of problem.now) (box_of problem.now) }
    ensures tableaux { EveryTableauSound (rows_of problem.now) (box_of problem.now) }
{
    answer_within(problem, limit)
}

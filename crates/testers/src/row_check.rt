//! The row check: a row whose values over the variables' ends all lie outside the row's own ends
//! shows at once that the box has no plan.
ghost use Rattle.std.specs.Prelude.{◌≡◌};
ghost use Rattle.testers.specs.Halving.{failing_row, row_check};
ghost use Rattle.testers.specs.Leaf.{LawfulLeafMeansNoPlan};
ghost use Rattle.problems.specs.View.{box_of, rows_of};
ghost use Rattle.testers.specs.Told.{leaf_found};

use super::leaf::Leaf;
use super::row_in_box::RowInBox;
use problems::problem::Problem;

// The leaf of row i, where that row fails.
fn failing_leaf(problem: &Problem, i: usize) -> Option<Leaf>
    ensures { leaf_found problem.now result ≡ failing_row (rows_of problem.now) (box_of problem.now) i }
{
    let row = RowInBox::of(problem, i)?;
    let z = row.failing_sign()?;
    Some(Leaf::Sum(row.multipliers(z)))
}

/// The leaf of the smallest failing row.
pub fn row_check(problem: &Problem) -> Option<Leaf>
    ensures value { leaf_found problem.now result ≡ row_check (rows_of problem.now) (box_of problem.now) }
    ensures leaf { LawfulLeafMeansNoPlan }
{
    (0..problem.rows()).find_map(|i| failing_leaf(problem, i))
}

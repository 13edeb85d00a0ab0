//! The tableau at the start: the variables are nonbasic at their lower ends, and the rows are basic.
//! The tables have a fixed size, since nothing here takes the heap.
ghost use Rattle.std.specs.Prelude.{◌≡◌, ◌+◌, ◌<◌, ◌≤◌, true, ◌++◌, map, length, take};
ghost use Rattle.tableau.specs.Lines.{start_line, start_lines};
ghost use Rattle.pivot.specs.Shapes.{LineOk, LinesOk, seen};
ghost use Rattle.tableau.specs.Tableau.{span_ends};
ghost use Rattle.problems.specs.View.{box_of, rows_of};
ghost use Rattle.problems.specs.Whole.{all_within};

use problems::problem::Problem;
use problems::quantity::{MOST, QUANTITIES, RowEnds, Span};
use problems::table::padded;
use tableau::line::Line;

// What stands past the last line.
const NO_LINE: Line = Line {
    basic: 0,
    nums: [0; QUANTITIES],
};

// The line of row i of m: its value is its quantity.
fn first_line(coefs: &[i64], m: usize, i: usize) -> Line
    requires long { length coefs.now + m ≤ 24 }
    requires inside { i < m }
    requires small { all_within 1000000000 coefs.now ≡ true }
    ensures value { seen (length coefs.now + m) result ≡ start_line m i coefs.now }
    ensures ok { LineOk (length coefs.now + m) result }
{
    let mut nums = padded(coefs, 0);
    let basic = coefs.len() + i;
    nums[basic] = -1;
    Line { basic, nums }
}

// The lines of all rows.
pub(crate) fn first_lines(problem: &Problem) -> [Line; MOST]
    ensures value { map (seen (length (box_of problem.now).vars + length (rows_of problem.now))) (take (length (rows_of problem.now)) result) ≡ start_lines (length (rows_of problem.now)) 0 (rows_of problem.now) }
    ensures ok { LinesOk (length (box_of problem.now).vars + length (rows_of problem.now)) (take (length (rows_of problem.now)) result) }
{
    let mut lines = [NO_LINE; MOST];
    let m = problem.rows();
    for (i, line) in lines[..m].iter_mut().enumerate() {
        *line = first_line(problem.coefs(i), m, i);
    }
    lines
}

// The ends of all quantities.
pub(crate) fn all_ends(vars: &[Span], rows: &[RowEnds]) -> [RowEnds; QUANTITIES]
    requires variables { length vars.now ≤ 12 }
    requires rows { length rows.now ≤ 12 }
    ensures { take (length vars.now + length rows.now) result ≡ map span_ends vars.now ++ rows.now }
{
    let n = vars.len();
    let mut all = [RowEnds::FREE; QUANTITIES];
    // No lemma tells what a `zip` over `iter_mut` has written, so the table is written by its index.
    for (v, s) in vars.iter().enumerate() {
        all[v] = RowEnds::from(*s);
    }
    all[n..n + rows.len()].copy_from_slice(rows);
    all
}

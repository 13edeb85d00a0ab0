//! The board of a run: lent tables, and the facts that hold of them from one pivot to the next.
ghost use Rattle.std.specs.Prelude.{◌≡◌, ◌≤◌, true, length};
ghost use Rattle.pivot.specs.Facts.{ends_ok_prop, lines_ok_prop};
ghost use Rattle.pivot.specs.Shapes.{EndsOk, LineOk, LinesOk, seen};
ghost use Rattle.tableau.specs.Lines.{den};
ghost use Rattle.problems.specs.Rows.{dot as product};
ghost use Rattle.problems.specs.Whole.{all_within};

use super::numbers::dot;
use problems::quantity::RowEnds;
use tableau::fraction::Fraction;
use tableau::line::Line;

/// The lines; for each quantity the end at which it sits, 0 for a basic one; and the ends of all quantities.
// Values and ends stand apart: the values move, the ends stay, and sums go over the values alone.
#[derive(Drop)]
pub(crate) struct Board<'a> {
    pub(crate) lines: &'a mut [Line],
    pub(crate) values: &'a mut [i64],
    pub(crate) ends: &'a [RowEnds],
    ghost few: { length lines.now ≤ 12 },
    ghost short: { length values.now ≤ 24 },
    ghost same: { length ends.now ≡ length values.now },
    ghost small: { all_within 200000000 values.now ≡ true },
    ghost lines_ok: { LinesOk (length values.now) lines.now } by { lines_ok_prop (length values.now) lines.now },
    ghost ends_ok: { EndsOk ends.now } by { ends_ok_prop ends.now },
}

// A line that is passed alone has a clause of its own: what makes it fit depends on the board that it goes with.
impl Board<'_> {
    // The value of the line's basic quantity.
    pub(crate) fn fraction_of(&self, line: &Line) -> Fraction
        requires { LineOk (length self.now.values.now) line.now }
        ensures num { result.num ≡ product (seen (length self.now.values.now) line.now).nums self.now.values.now }
        ensures den { result.den ≡ den (seen (length self.now.values.now) line.now) }
    {
        let num = dot(&line.nums[0..self.values.len()], self.values);
        Fraction {
            num,
            den: -line.nums[line.basic],
        }
    }
}

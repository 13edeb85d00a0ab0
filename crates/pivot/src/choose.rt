//! Bland's rule: the smallest basic quantity outside its ends leaves, and the smallest nonbasic quantity that helps it
//! enters. Taking the smallest both times keeps a run from going round in a circle.
ghost use Rattle.std.specs.Prelude.{◌≡◌, ◌≤◌, true, map, length, unsigned_abs};
ghost use Rattle.tableau.specs.Choices.{earlier as sooner, entering as enters, may_fall, may_rise, outside as breach, scaled, suitable as suits, violated as violates, violation as breaks};
ghost use Rattle.pivot.specs.Shapes.{LineOk, seen};
ghost use Rattle.problems.specs.Ranges.{in_reach};
ghost use Rattle.testers.specs.Halving.{exceeds, falls_short};

use super::board::Board;
use problems::quantity::{RowEnds, Side};
use tableau::line::Line;
use tableau::run::Violation;

// The end that z / d violates.
fn violated(e: RowEnds, d: i64, z: i64) -> Option<Side>
    requires den { unsigned_abs d ≤ 1000000000 }
    requires lower { in_reach e.lower ≡ true }
    requires upper { in_reach e.upper ≡ true }
    ensures { result ≡ violates e d z }
{
    if e.lower.is_some_and(|l| z < d * l) {
        Some(Side::Lower)
    } else if e.upper.is_some_and(|u| d * u < z) {
        Some(Side::Upper)
    } else {
        None
    }
}

// Whether moving a quantity of number a, at x, within its ends helps.
fn suitable(side: Side, a: i64, x: i64, e: RowEnds) -> bool
    ensures { result ≡ suits side a x e }
{
    let rises = e.upper.is_none_or(|u| x < u);
    let falls = e.lower.is_none_or(|l| l < x);
    match side {
        Side::Lower => (a > 0 && rises) || (a < 0 && falls),
        Side::Upper => (a > 0 && falls) || (a < 0 && rises),
    }
}

// The one of the smaller quantity.
fn earlier(a: Option<Violation>, b: Option<Violation>) -> Option<Violation>
    ensures { result ≡ sooner a b }
{
    a.filter(|x| b.is_none_or(|y| x.basic <= y.basic)).or(b)
}

impl Board<'_> {
    // The line's basic quantity, where it is outside its ends.
    fn violation_of(&self, line: &Line, i: usize) -> Option<Violation>
        requires { LineOk (length self.now.values.now) line.now }
        ensures { result ≡ breaks self.now.ends.now self.now.values.now i (seen (length self.now.values.now) line.now) }
    {
        let f = self.fraction_of(line);
        let side = violated(self.ends[line.basic], f.den, f.num)?;
        Some(Violation {
            place: i,
            basic: line.basic,
            side,
        })
    }

    // The smallest basic quantity outside its ends.
    pub(crate) fn outside(&self) -> Option<Violation>
        ensures { result ≡ breach self.now.ends.now self.now.values.now 0 (map (seen (length self.now.values.now)) self.now.lines.now) }
    {
        let mut first = None;
        for (i, line) in self.lines.iter().enumerate() {
            first = earlier(first, self.violation_of(line, i));
        }
        first
    }

    // The smallest suitable nonbasic quantity.
    pub(crate) fn entering(&self, side: Side, line: &Line) -> Option<usize>
        requires { LineOk (length self.now.values.now) line.now }
        ensures { result ≡ enters side self.now.ends.now self.now.values.now (seen (length self.now.values.now) line.now) 0 (length self.now.values.now) }
    {
        (0..self.values.len()).find(|&q| {
            q != line.basic && suitable(side, line.nums[q], self.values[q], self.ends[q])
        })
    }
}

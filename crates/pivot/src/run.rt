//! A run of pivots: one look at the tableau after the other, until no quantity is outside its ends, or one is that none
//! can help, or the run gives way.
ghost use Rattle.std.specs.Prelude.{◌≡◌, ◌<◌, true, false, [], length};
ghost use Rattle.pivot.specs.Shapes.{InsideStep, LeftAt, shown};
ghost use Rattle.tableau.specs.Tableau.{end_value, look as looks, moved, pivoted, run as runs, small_lines};

use super::board::Board;
use problems::quantity::{RowEnds, Side};
use std::mem;
use tableau::run::{Step, Stop, Violation};

// The violated end, at which a quantity leaves.
fn end_value(side: Side, e: RowEnds) -> i64
    ensures { result ≡ end_value side e }
{
    let end = match side {
        Side::Lower => e.lower,
        Side::Upper => e.upper,
    };
    end.unwrap_or(0)
}

impl Board<'_> {
    // Puts the leaving quantity at its violated end, and takes q in.
    fn shift(&mut self, f: Violation, q: usize)
        requires leaves { f.basic < length self.old.values.now }
        requires enters { q < length self.old.values.now }
        ensures value { self.new.values.now ≡ moved f q self.old.ends.now self.old.values.now }
        ensures lines { self.new.lines.now ≡ self.old.lines.now }
        ensures ends { self.new.ends.now ≡ self.old.ends.now }
    {
        self.values[f.basic] = end_value(f.side, self.ends[f.basic]);
        self.values[q] = 0;
    }

    // One look at the board.
    fn look(&self) -> Step
        ensures value { result ≡ looks self.now.ends.now (length self.now.values.now) (shown (length self.now.values.now) self.now.values.now self.now.lines.now) }
        ensures inside { InsideStep (length self.now.values.now) (length self.now.lines.now) result }
    {
        let Some(f) = self.outside() else {
            return Step::Standing;
        };
        let lines = &*self.lines;
        self.entering(f.side, &lines[f.place])
            .map_or(Step::Stuck(f), |q| Step::Turn(f, q))
    }

    // Takes q in for the quantity that leaves; false, and the board has no line left and its values stay, where a number
    // would be too large.
    fn pivot(&mut self, f: Violation, q: usize) -> bool
        requires standing { f.place < length self.old.lines.now }
        requires leaves { f.basic < length self.old.values.now }
        requires enters { q < length self.old.values.now }
        ensures value { result ≡ small_lines (pivoted self.old.ends.now f q (shown (length self.old.values.now) self.old.values.now self.old.lines.now)).lines }
        ensures after { result ≡ true → shown (length self.old.values.now) self.new.values.now self.new.lines.now ≡ pivoted self.old.ends.now f q (shown (length self.old.values.now) self.old.values.now self.old.lines.now) }
        ensures large { result ≡ false → (self.new.lines.now ≡ []) × (self.new.values.now ≡ self.old.values.now) }
        ensures long { length self.new.values.now ≡ length self.old.values.now }
        ensures ends { self.new.ends.now ≡ self.old.ends.now }
    {
        let lines = mem::take(&mut self.lines);
        let t = self.turn(&lines[f.place], q);
        self.exchange(&mut *lines, f.place, &t, q);
        if !self.are_small(lines) {
            return false;
        }
        self.lines = lines;
        self.shift(f, q);
        true
    }

    // Pivots, at most so often, until no quantity is outside its ends or one is that none can help. Where a number would
    // be too large, no line is left.
    pub(crate) fn run(&mut self, limit: u32) -> Stop
        ensures stop { result ≡ (runs limit self.old.ends.now (length self.old.values.now) (shown (length self.old.values.now) self.old.values.now self.old.lines.now)).stop }
        ensures left { LeftAt (length self.new.lines.now) result (shown (length self.old.values.now) self.new.values.now self.new.lines.now) (runs limit self.old.ends.now (length self.old.values.now) (shown (length self.old.values.now) self.old.values.now self.old.lines.now)).tableau }
        ensures long { length self.new.values.now ≡ length self.old.values.now }
    {
        // It looks once more than it pivots: a range of looks would need an answer behind it that is never reached.
        let mut rest = limit;
        loop {
            match self.look() {
                Step::Standing => return Stop::Stands,
                Step::Stuck(f) => return Stop::Fails(f),
                Step::Turn(f, q) => {
                    if rest == 0 {
                        return Stop::GaveWay;
                    }
                    rest -= 1;
                    if !self.pivot(f, q) {
                        return Stop::GaveWay;
                    }
                }
            }
        }
    }
}

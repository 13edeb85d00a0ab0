//! Reading an answer off the last tableau: the values of its quantities, and the multipliers of a leaf.
ghost use Rattle.std.specs.Prelude.{◌≡◌, ℕ, ◌<◌, ◌≤◌, map, length, take, pos, slice_index_or, ◌<ℤ◌};
ghost use Rattle.tableau.specs.Lines.{blank};
ghost use Rattle.tableau.specs.Pivot.{broken as breaks, floor as floor_of, floors, multipliers, settled, value, whole as is_whole};
ghost use Rattle.pivot.specs.Shapes.{turns_signs, seen, shown};
ghost use Rattle.tableau.specs.Sound.{DensOk};
ghost use Rattle.testers.specs.Told.{answer_in};

use super::board::Board;
use super::numbers::negate;
use problems::quantity::{MOST, QUANTITIES, Side};
use tableau::fraction::Fraction;
use testers::answer::Answer;

// Whether there is a remainder, and the quotient: one operator each, so one function for both would be no shorter.

// Whether no fraction is left.
fn whole(f: Fraction) -> bool
    requires { pos 0 <ℤ f.den }
    ensures { result ≡ is_whole f }
{
    f.num.rem_euclid(f.den) == 0
}

// The value rounded downward.
fn floor(f: Fraction) -> i64
    requires { pos 0 <ℤ f.den }
    ensures { result ≡ floor_of f }
{
    f.num.div_euclid(f.den)
}

// Whether the multipliers of a leaf are the line's numbers with their signs turned.
fn turns(side: Side) -> bool
    ensures { result ≡ turns_signs side }
{
    matches!(side, Side::Upper)
}

impl Board<'_> {
    // The value of quantity v.
    fn value_of(&self, v: usize) -> Fraction
        requires { v < length self.now.values.now }
        ensures { result ≡ value v self.now.values.now (map (seen (length self.now.values.now)) self.now.lines.now) }
    {
        // A closure of `map_or` would not know that the line it gets is one of the board's.
        match self.lines.iter().find(|line| line.basic == v) {
            Some(line) => self.fraction_of(line),
            None => Fraction {
                num: self.values[v],
                den: 1,
            },
        }
    }

    // The values of n variables, rounded.
    fn floors_of(&self, n: usize) -> [i64; MOST]
        requires above { DensOk (map (seen (length self.now.values.now)) self.now.lines.now) }
        requires inside { n ≤ length self.now.values.now }
        requires few { n ≤ 12 }
        ensures { take n result ≡ floors self.now.values.now (map (seen (length self.now.values.now)) self.now.lines.now) 0 n }
    {
        let mut point = [0; MOST];
        for (v, x) in point[..n].iter_mut().enumerate() {
            *x = floor(self.value_of(v));
        }
        point
    }

    // The answer where no quantity is outside its ends: the point, or a split of the first variable that is not whole.
    pub(crate) fn settle(&self, n: usize) -> Answer
        requires above { DensOk (map (seen (length self.now.values.now)) self.now.lines.now) }
        requires inside { n ≤ length self.now.values.now }
        requires few { n ≤ 12 }
        ensures { (m : ℕ) → answer_in n m result ≡ settled n (shown (length self.now.values.now) self.now.values.now self.now.lines.now) (breaks self.now.values.now (map (seen (length self.now.values.now)) self.now.lines.now) 0 n) }
    {
        // Two answers side by side, which `map_or_else` would only hide in closures.
        match (0..n).find(|&v| !whole(self.value_of(v))) {
            Some(v) => Answer::Split((v, floor(self.value_of(v)))),
            None => Answer::Point(self.floors_of(n)),
        }
    }

    // The multipliers by which a line refutes the box: its numbers, turned where its upper end is violated.
    pub(crate) fn refute(&self, place: usize, side: Side) -> [i64; QUANTITIES]
        requires { place < length self.now.lines.now }
        ensures { take (length self.now.values.now) result ≡ multipliers side (take (length self.now.values.now) (slice_index_or self.now.lines.now place blank).nums) }
    {
        let mut nums = self.lines[place].nums;
        if turns(side) {
            negate(&mut nums[0..self.values.len()]);
        }
        nums
    }
}

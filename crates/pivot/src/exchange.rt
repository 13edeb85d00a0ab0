//! The exchange of two quantities: the leaving line is turned into that of the entering quantity, which is then taken
//! out of every other line.
ghost use Rattle.std.specs.Prelude.{◌≡◌, ◌<◌, map, length};
ghost use Rattle.tableau.specs.Lines.{substituted, turned};
ghost use Rattle.pivot.specs.Shapes.{AllShaped, LineOk, LinesOk, Shaped, seen};
ghost use Rattle.tableau.specs.Tableau.{exchanged, small_lines};
ghost use Rattle.problems.specs.Whole.{all_within};

use super::board::Board;
use super::numbers::{clear, negate, small};
use tableau::line::Line;

// A quantity is a bare number: what bounds it is the board that it goes with, so each function asks for it.
impl Board<'_> {
    // The line's equation as that of the quantity q.
    pub(crate) fn turn(&self, line: &Line, q: usize) -> Line
        requires line { LineOk (length self.now.values.now) line.now }
        requires inside { q < length self.now.values.now }
        ensures value { seen (length self.now.values.now) result ≡ turned q (seen (length self.now.values.now) line.now) }
        ensures ok { LineOk (length self.now.values.now) result }
    {
        // `Board::refute` turns signs too, by another test: what they share is `negate`.
        let mut nums = line.nums;
        if nums[q] > 0 {
            negate(&mut nums[0..self.values.len()]);
        }
        Line { basic: q, nums }
    }

    // Takes q out of the line by t.
    fn substitute(&self, line: &mut Line, t: &Line, q: usize)
        requires line { LineOk (length self.now.values.now) line.old }
        requires turned { LineOk (length self.now.values.now) t.now }
        requires inside { q < length self.now.values.now }
        ensures value { seen (length self.now.values.now) line.new ≡ substituted q (seen (length self.now.values.now) t.now) (seen (length self.now.values.now) line.old) }
        ensures shaped { Shaped (length self.now.values.now) line.new }
    {
        let k = self.values.len();
        clear(&mut line.nums[0..k], &t.nums[0..k], q);
    }

    // Puts t at the given place, and takes q out of every other line. The lines are lent apart, since their numbers may
    // be too large for a board afterwards.
    pub(crate) fn exchange(&self, lines: &mut [Line], place: usize, t: &Line, q: usize)
        requires lines { LinesOk (length self.now.values.now) lines.old }
        requires turned { LineOk (length self.now.values.now) t.now }
        requires inside { q < length self.now.values.now }
        ensures value { map (seen (length self.now.values.now)) lines.new ≡ exchanged place q (seen (length self.now.values.now) t.now) 0 (map (seen (length self.now.values.now)) lines.old) }
        ensures shaped { AllShaped (length self.now.values.now) lines.new }
    {
        for (j, line) in lines.iter_mut().enumerate() {
            if j == place {
                *line = *t;
            } else {
                self.substitute(line, t, q);
            }
        }
    }

    // Whether every number of the lines is of the size that a line may have.
    pub(crate) fn are_small(&self, lines: &[Line]) -> bool
        requires { AllShaped (length self.now.values.now) lines.now }
        ensures { result ≡ small_lines (map (seen (length self.now.values.now)) lines.now) }
    {
        let k = self.values.len();
        lines.iter().all(|line| small(&line.nums[..k]))
    }
}

//! The promise of a tester, which is all that the search knows of one.
ghost use Rattle.testers.specs.Tester.{KeepsLaws, Meaning};
ghost use Rattle.problems.specs.View.{box_of, rows_of};
ghost use Rattle.testers.specs.Told.{answer_of};
ghost use Rattle.std.specs.Prelude.{◌≡◌};

use super::answer::Answer;
use problems::problem::Problem;

/// A tester means one fixed answer to each pair of rows and a box, and a test gives it.
pub trait Tester {
    ghost meaning: { Self → Meaning };

    /// The answer for this problem; the meaning stays.
    fn test(&mut self, problem: &Problem) -> Answer
        ensures answer { answer_of problem.now result ≡ meaning self.old (rows_of problem.now) (box_of problem.now) }
        ensures same { meaning self.new ≡ meaning self.old };

    ghost lawful: { (t : Self) → KeepsLaws (meaning t) };
}

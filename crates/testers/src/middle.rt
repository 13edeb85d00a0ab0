//! The middle split: the widest variable is cut at the middle of its ends, so that the halves are alike.
ghost use Rattle.std.specs.Prelude.{◌≡◌, ◌<◌, true, length, pos, ◌+ℤ◌, slice_index_or};
ghost use Rattle.std.specs.Int.{int_div_euclid};
ghost use Rattle.problems.specs.Box.{nowhere};
ghost use Rattle.testers.specs.Halving.{middle_split, size};
ghost use Rattle.problems.specs.Ranges.{span_proper, spans_proper};
ghost use Rattle.testers.specs.Tester.Answer.{split};
ghost use Rattle.problems.specs.View.{box_of};

use problems::problem::Problem;
use problems::quantity::Span;

// A span's fields are public and a caller may hand in ends that cross, so its type cannot carry that they are
// in order; the table's type does, and the three functions below ask for it.

// How far apart the ends are.
fn size_of(s: Span) -> i64
    requires { span_proper s ≡ true }
    ensures { result ≡ size s }
{
    s.upper - s.lower
}

// The middle of the ends, rounded downward.
fn middle_of(s: Span) -> i64
    requires { span_proper s ≡ true }
    ensures { result ≡ int_div_euclid (s.lower +ℤ s.upper) (pos 2) }
{
    (s.lower + s.upper).div_euclid(2)
}

// The variable with the widest ends, the smallest on a tie.
fn widest_of(vars: &[Span]) -> usize
    requires some { 0 < length vars.now }
    requires proper { spans_proper vars.now ≡ true }
    ensures within { result < length vars.now }
    ensures value { split result (int_div_euclid ((slice_index_or vars.now result nowhere).lower +ℤ (slice_index_or vars.now result nowhere).upper) (pos 2)) ≡ middle_split vars.now }
{
    // A loop: `max_by_key` gives the last of several, and here the first is wanted; going round backward would say it
    // less plainly.
    let mut best = 0;
    for (i, s) in vars.iter().enumerate() {
        if size_of(vars[best]) < size_of(*s) {
            best = i;
        }
    }
    best
}

/// A variable, counted from 0, and the number at which the middle split cuts it.
pub fn middle_split(problem: &Problem) -> (usize, i64)
    ensures { split result.0 result.1 ≡ middle_split (box_of problem.now).vars }
{
    let vars = problem.vars();
    let v = widest_of(vars);
    (v, middle_of(vars[v]))
}

#[cfg(test)]
mod tests {
    use super::*;

    #[test]
    fn middle_of_minus_one_and_zero_is_minus_one(rt: HostRuntime) {
        assert_eq!(rt;
            middle_of(Span {
                lower: -1,
                upper: 0,
            }),
            -1
        );
    }

    #[test]
    fn a_tie_goes_to_the_smaller_variable(rt: HostRuntime) {
        let narrow = Span { lower: 4, upper: 5 };
        let wide = Span { lower: 0, upper: 7 };
        let tied = Span {
            lower: -7,
            upper: 0,
        };
        assert_eq!(rt; widest_of(&[narrow, wide, tied]), 1);
    }
}

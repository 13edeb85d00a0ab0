//! One row over the variables' ends, and the values that it can have there.
ghost use Rattle.std.specs.Option.{is_some};
ghost use Rattle.std.specs.Prelude.{◌≡◌, ◌<◌, ◌≤◌, true, length, nat_lt, IfSome, unsigned_abs};
ghost use Rattle.testers.specs.Halving.{failing_sign, fewest, greatest, least, row_multipliers};
ghost use Rattle.testers.specs.Leaf.{most};
ghost use Rattle.problems.specs.Ranges.{ends_proper, span_proper, spans_proper};
ghost use Rattle.problems.specs.View.{box_of, rows_of};
ghost use Rattle.problems.specs.Whole.{all_within};

use problems::problem::Problem;
use problems::quantity::{QUANTITIES, RowEnds, Span};

/// A row's number, counted from 0, its coefficients, the ends of the variables that they belong to, and its own ends.
#[derive(Clone, Copy)]
pub struct RowInBox<'a> {
    pub number: usize,
    pub coefs: &'a [i64],
    pub vars: &'a [Span],
    pub ends: RowEnds,
    ghost numbered: { number < 12 },
    ghost coefficients: { all_within 100 coefs.now ≡ true },
    ghost spans: { spans_proper vars.now ≡ true },
    ghost alike: { length coefs.now ≡ length vars.now },
    ghost few: { length coefs.now ≤ 12 },
    ghost proper: { ends_proper ends ≡ true },
}

// The least and the greatest of the coefficient's products with the variable. That its ends are in order is asked for:
// a span's fields are public, so its type cannot carry it.
fn products(a: i64, s: Span) -> Span
    requires coefficient { unsigned_abs a ≤ 100 }
    requires proper { span_proper s ≡ true }
    ensures least { result.lower ≡ fewest a s }
    ensures greatest { result.upper ≡ most a s }
    ensures small { (unsigned_abs result.lower ≤ 10000000) × (unsigned_abs result.upper ≤ 10000000) }
{
    if a < 0 {
        Span {
            lower: a * s.upper,
            upper: a * s.lower,
        }
    } else {
        Span {
            lower: a * s.lower,
            upper: a * s.upper,
        }
    }
}

impl<'a> RowInBox<'a> {
    ghost use Rattle.testers.specs.RowInBox.{IsRow};

    /// Row i of the problem; none where there is no such row.
    pub fn of(problem: &'a Problem, i: usize) -> Option<RowInBox<'a>>
        ensures there { is_some result ≡ nat_lt i (length (rows_of problem.now)) }
        ensures row { IfSome result (IsRow (rows_of problem.now) (box_of problem.now) i) }
    {
        let ends = problem.row_ends().get(i).copied()?;
        Some(RowInBox {
            number: i,
            coefs: problem.coefs(i),
            vars: problem.vars(),
            ends,
        })
    }

    /// The row's least and greatest value over the variables' ends.
    pub fn range(&self) -> Span
        ensures least { result.lower ≡ least self.now.coefs.now self.now.vars.now }
        ensures greatest { result.upper ≡ greatest self.now.coefs.now self.now.vars.now }
    {
        let mut sum = Span { lower: 0, upper: 0 };
        for (a, s) in self.coefs.iter().zip(self.vars) {
            let term = products(*a, *s);
            sum.lower += term.lower;
            sum.upper += term.upper;
        }
        sum
    }

    /// The row's multiplier in the leaf, where the row fails: 1 where all its values are above its
    /// upper end, and -1 where all are below its lower end.
    pub fn failing_sign(&self) -> Option<i64>
        ensures value { result ≡ failing_sign self.now.coefs.now self.now.vars.now self.now.ends }
    {
        let range = self.range();
        if self.ends.upper.is_some_and(|u| u < range.lower) {
            Some(1)
        } else if self.ends.lower.is_some_and(|l| range.upper < l) {
            Some(-1)
        } else {
            None
        }
    }

    // The multipliers by which the row, with the multiplier z, refutes a box: they cancel each variable.
    pub(crate) fn multipliers(&self, z: i64) -> [i64; QUANTITIES]
        requires sign { unsigned_abs z ≤ 1 }
        ensures { result ≡ row_multipliers z self.now.coefs.now self.now.number }
    {
        let mut all = [0; QUANTITIES];
        // No lemma tells what a `zip` over `iter_mut` has written, so the table is written by its index.
        for (j, a) in self.coefs.iter().enumerate() {
            all[j] = -(z * *a);
        }
        all[self.coefs.len() + self.number] = z;
        all
    }
}

#[cfg(test)]
mod tests {
    use super::*;

    const VARS: [Span; 2] = [Span { lower: 1, upper: 5 }, Span { lower: 0, upper: 1 }];

    #[test]
    fn a_row_above_its_upper_end_has_the_multiplier_one(rt: HostRuntime) {
        let row = RowInBox {
            number: 0,
            coefs: &[2, -3],
            vars: &VARS,
            ends: RowEnds {
                lower: None,
                upper: Some(-2),
            },
        };
        assert_eq!(rt; row.failing_sign(), Some(1));
    }

    #[test]
    fn a_row_that_reaches_its_end_passes(rt: HostRuntime) {
        let row = RowInBox {
            number: 0,
            coefs: &[2, -3],
            vars: &VARS,
            ends: RowEnds {
                lower: Some(10),
                upper: None,
            },
        };
        assert_eq!(rt; row.failing_sign(), None);
    }

    #[test]
    fn the_multipliers_turn_the_coefficients_and_name_the_row(rt: HostRuntime) {
        let row = RowInBox {
            number: 1,
            coefs: &[2, -3],
            vars: &VARS,
            ends: RowEnds::FREE,
        };
        let all = row.multipliers(1);
        assert!(rt; all[0] == -2);
        assert!(rt; all[1] == 3);
        assert!(rt; all[2] == 0);
        assert!(rt; all[3] == 1);
        assert!(rt; all[4] == 0);
    }
}

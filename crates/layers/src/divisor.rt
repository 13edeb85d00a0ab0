//! The divisor layer: a row whose unfixed variables all have a multiple of g for their coefficient
//! moves in steps of g, so with no multiple of g where it must arrive the box has no plan. No bound
//! on the variables shows that, so the layer stands over a tester that goes by bounds.
ghost use Rattle.std.specs.Prelude.{◌≡◌, ◌≤◌, true, pos, ◌*ℤ◌, if◌then◌else◌, unsigned_abs};
ghost use Rattle.layers.specs.Divisor.{divisor_layer, free_gcd, missed_leaf, missed_row};
ghost use Rattle.problems.specs.Ranges.{span_proper};
ghost use Rattle.problems.specs.View.{box_of, rows_of};
ghost use Rattle.testers.specs.Leaf.{fixed, fixed_part, misses, no_multiple};
ghost use Rattle.testers.specs.Told.{leaf_found};
ghost use Rattle.layers.specs.Divisors.{divisor_laws};

use problems::problem::Problem;
use problems::quantity::Span;
use testers::answer::Answer;
use testers::gcd::gcd;
use testers::halving::is_fixed;
use testers::leaf::Leaf;
use testers::row_in_box::RowInBox;
use testers::tester::Tester;

// The least divisor that says anything: every whole number is a multiple of 1.
const LEAST: u64 = 2;

// The size of an unfixed variable's coefficient; 0, which changes no divisor, for a fixed one.
fn free_size(a: i64, s: Span) -> u64
    ensures { result ≡ (if fixed s then 0 else unsigned_abs a) }
{
    if is_fixed(s) { 0 } else { a.unsigned_abs() }
}

// What a fixed variable adds to the row; 0 for an unfixed one. That its ends are in range is asked for: a span's
// fields are public, so its type cannot carry it.
fn fixed_term(a: i64, s: Span) -> i64
    requires coefficient { unsigned_abs a ≤ 100 }
    requires proper { span_proper s ≡ true }
    ensures value { result ≡ (if fixed s then a *ℤ s.lower else pos 0) }
    ensures small { unsigned_abs result ≤ 10000000 }
{
    if is_fixed(s) { a * s.lower } else { 0 }
}

// The greatest common divisor of the unfixed variables' coefficients.
fn free_gcd(row: &RowInBox) -> u64
    ensures value { result ≡ free_gcd row.now.coefs.now row.now.vars.now }
    ensures small { result ≤ 100 }
{
    let mut g = 0;
    for (coef, span) in row.coefs.iter().zip(row.vars) {
        g = gcd(free_size(*coef, *span), g);
    }
    g
}

// The fixed variables' part of the row.
fn fixed_part(row: &RowInBox) -> i64
    ensures value { result ≡ fixed_part row.now.coefs.now row.now.vars.now }
    ensures small { unsigned_abs result ≤ 120000000 }
{
    // Not one function with `RowInBox::range`: a sum that takes its term as a closure would ask its callers for
    // the term's bounds.
    let mut sum = 0;
    for (a, s) in row.coefs.iter().zip(row.vars) {
        sum += fixed_term(*a, *s);
    }
    sum
}

// Whether no multiple of g lies within the ends: the greatest one up to the upper end is below the lower.
fn no_multiple(g: u64, s: Span) -> bool
    requires some { 1 ≤ g }
    requires divisor { g ≤ 100 }
    requires upper { unsigned_abs s.upper ≤ 1000000000 }
    ensures { result ≡ no_multiple g s.lower s.upper }
{
    // At most 100, so the cast keeps it, as in `missed_leaf`.
    let g = g as i64;
    g * s.upper.div_euclid(g) < s.lower
}

// Whether both ends are present and g, at least 2, has no multiple where the unfixed variables must arrive.
fn misses_row(g: u64, row: &RowInBox) -> bool
    requires divisor { g ≤ 100 }
    ensures { result ≡ misses g (fixed_part row.now.coefs.now row.now.vars.now) row.now.ends.lower row.now.ends.upper }
{
    // A zip whose closure takes the differences is not proved: that they stay within 64 bits stays open.
    match (row.ends.lower, row.ends.upper) {
        (Some(lower), Some(upper)) => {
            let part = fixed_part(row);
            let left = Span {
                lower: lower - part,
                upper: upper - part,
            };
            g >= LEAST && no_multiple(g, left)
        }
        _ => false,
    }
}

// The leaf of row i, where its divisor misses it.
fn missed_leaf(problem: &Problem, i: usize) -> Option<Leaf>
    ensures { leaf_found problem.now result ≡ missed_leaf (rows_of problem.now) (box_of problem.now) i }
{
    let row = RowInBox::of(problem, i)?;
    let g = free_gcd(&row);
    misses_row(g, &row).then_some(Leaf::Divisor {
        row: i,
        g: g as usize,
    })
}

/// The leaf of the first row that the greatest common divisor of its unfixed variables' coefficients misses.
pub fn missed_row(problem: &Problem) -> Option<Leaf>
    ensures { leaf_found problem.now result ≡ missed_row (rows_of problem.now) (box_of problem.now) }
{
    (0..problem.rows()).find_map(|i| missed_leaf(problem, i))
}

/// The tester that looks for a missed row, and else asks the tester below.
#[derive(Drop)]
pub struct Divisor<T> {
    pub below: T,
}

impl<T: Tester> Tester for Divisor<T> {
    ghost meaning = { λ t. divisor_layer (T.Tester.meaning t.below) };

    ghost lawful = { λ t. divisor_laws (T.Tester.meaning t.below) (T.Tester.lawful t.below) };

    fn test(&mut self, problem: &Problem) -> Answer {
        // The tester below may change, which a closure of `map_or_else` would hide from the contract.
        if let Some(leaf) = missed_row(problem) {
            Answer::Empty(leaf)
        } else {
            self.below.test(problem)
        }
    }
}

#[cfg(test)]
mod tests {
    use super::*;
    use problems::quantity::RowEnds;

    // The row and the divisor that miss, in a problem of this one row with both ends at the value.
    fn missed(vars: &[Span], coefs: &[i64], value: i64) -> Option<(usize, usize)> {
        let mut problem = Problem::over(vars)?;
        problem.add_row(
            coefs,
            RowEnds::from(Span {
                lower: value,
                upper: value,
            }),
        );
        match missed_row(&problem)? {
            Leaf::Divisor { row, g } => Some((row, g)),
            Leaf::Sum(_) => None,
        }
    }

    #[test]
    fn twice_a_sum_is_not_three(rt: HostRuntime) {
        let bit = Span { lower: 0, upper: 1 };
        assert_eq!(rt; missed(&[bit, bit], &[2, 2], 3), Some((0, 2)));
    }

    #[test]
    fn twice_a_number_is_not_minus_three(rt: HostRuntime) {
        let below = Span {
            lower: -3,
            upper: 0,
        };
        assert_eq!(rt; missed(&[below], &[2], -3), Some((0, 2)));
    }
}

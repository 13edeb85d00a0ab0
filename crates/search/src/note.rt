//! Noting the ends that a leaf uses, as long as no split replaced them.
ghost use Rattle.std.specs.Prelude.{◌≡◌, ℕ, ◌<◌, ◌≤◌, true, ◌&&◌, ◌||◌, [], length, take, drop, ◌==◌, slice_index_or};
ghost use Rattle.search.specs.Search.{also_used, still_standing};
ghost use Rattle.search.specs.Shown.{marked, neither, side_in, uses_of};
ghost use Rattle.testers.specs.Leaf.{by_fixed, by_sign, uses};
ghost use Rattle.problems.specs.View.{box_of, rows_of};
ghost use Rattle.search.specs.Refuted.{leaf_of};
ghost use Rattle.problems.specs.declared.quantity.Side.{Side};

use super::refutation::Refutation;
use super::uses::{Sides, Uses};
use problems::problem::Problem;
use problems::quantity::{MOST, QUANTITIES, Span};
use std::array;
use testers::halving::is_fixed;
use testers::leaf::Leaf;

// The upper end for a positive multiplier, the lower end for a negative one.
fn sign_sides(ms: &[i64], i: usize) -> Sides
    ensures { (side : Side) → side_in side result ≡ by_sign ms.now side i }
{
    let m = ms.get(i).copied().unwrap_or(0);
    Sides {
        lower: m < 0,
        upper: m > 0,
    }
}

// Both ends where they are used, else neither.
fn both_if(used: bool) -> Sides
    ensures { (side : Side) → side_in side result ≡ used }
{
    if used { Sides::BOTH } else { Sides::NEITHER }
}

// Both ends of a fixed variable whose coefficient is not 0, else neither.
fn fixed_sides(coefs: &[i64], vars: &[Span], i: usize) -> Sides
    requires { length coefs.now ≡ length vars.now }
    ensures { (side : Side) → side_in side result ≡ by_fixed coefs.now vars.now side i }
{
    both_if(i < coefs.len() && is_fixed(vars[i]) && coefs[i] != 0)
}

// The ends of a variable that are still those of the root.
fn standing_sides(root: &[Span], at: &[Span], i: usize) -> Sides
    requires { (i < length root.now) × (i < length at.now) }
    ensures { (side : Side) → side_in side result ≡ still_standing root.now at.now side i }
{
    Sides {
        lower: at[i].lower == root[i].lower,
        upper: at[i].upper == root[i].upper,
    }
}

// For each multiplier the end that its sign asks for.
fn by_sign(ms: &[i64]) -> [Sides; MOST]
    requires { length ms.now ≤ 12 }
    ensures { (side : Side) (i : ℕ) → marked result side i ≡ by_sign ms.now side i }
{
    array::from_fn(|i| sign_sides(ms, i))
}

// Both ends of each fixed variable whose coefficient is not 0.
fn by_fixed(coefs: &[i64], vars: &[Span]) -> [Sides; MOST]
    requires { (length coefs.now ≤ 12) × (length coefs.now ≡ length vars.now) }
    ensures { (side : Side) (i : ℕ) → marked result side i ≡ by_fixed coefs.now vars.now side i }
{
    array::from_fn(|i| fixed_sides(coefs, vars, i))
}

// Both ends of one row.
fn both_of(row: usize) -> [Sides; MOST]
    requires { row < 12 }
    ensures { (side : Side) (i : ℕ) → marked result side i ≡ (i == row) }
{
    array::from_fn(|i| both_if(i == row))
}

// Those of the ends that no split replaced.
fn standing(sides: &[Sides; MOST], root: &[Span], at: &[Span]) -> [Sides; MOST]
    requires { (length at.now ≤ 12) × (length root.now ≡ length at.now) }
    ensures { (side : Side) (i : ℕ) → marked result side i ≡ (marked sides.now side i && still_standing root.now at.now side i) }
{
    array::from_fn(|i| if i < at.len() {
        sides[i] & standing_sides(root, at, i)
    } else {
        sides[i]
    })
}

// The ends of either table.
fn either(sides: &[Sides; MOST], others: &[Sides; MOST]) -> [Sides; MOST]
    ensures { (side : Side) (i : ℕ) → marked result side i ≡ (marked sides.now side i || marked others.now side i) }
{
    array::from_fn(|i| sides[i] | others[i])
}

// The ends that a sum leaf uses.
fn used_by_sum(ms: &[i64; QUANTITIES], n: usize, m: usize) -> Uses
    requires { (n ≤ 12) × (m ≤ 12) }
    ensures { uses_of result ≡ record { vars = by_sign (take n ms.now); rows = by_sign (take m (drop n ms.now)) } }
{
    Uses {
        vars: by_sign(&ms[0..n]),
        rows: by_sign(&ms[n..n + m]),
    }
}

// The ends that a divisor leaf uses.
fn used_by_divisor(problem: &Problem, row: usize) -> Uses
    requires { row < length (rows_of problem.now) }
    ensures { uses_of result ≡ record { vars = by_fixed (slice_index_or (rows_of problem.now) row []) (box_of problem.now).vars; rows = λ side i. (i == row) } }
{
    Uses {
        vars: by_fixed(problem.coefs(row), problem.vars()),
        rows: both_of(row),
    }
}

// The ends that a leaf uses.
fn used_by(refutation: &Refutation) -> Uses
    ensures { uses_of result ≡ uses (rows_of refutation.now.problem.now) (box_of refutation.now.problem.now) (leaf_of refutation.now) }
{
    let problem = refutation.problem;
    match refutation.leaf {
        Leaf::Sum(ms) => used_by_sum(ms, problem.vars().len(), problem.row_ends().len()),
        Leaf::Divisor { row, .. } => used_by_divisor(problem, *row),
    }
}

// Notes the ends that a leaf uses: of the variables' ends those that are still the root's, and all row ends.
pub(crate) fn note(used: &mut Uses, root: &Problem, refutation: &Refutation)
    requires { root.now.ends.vars.n ≡ refutation.now.problem.now.ends.vars.n }
    ensures { uses_of used.new ≡ also_used (rows_of refutation.now.problem.now) (box_of root.now) (box_of refutation.now.problem.now) (leaf_of refutation.now) (uses_of used.old) }
{
    let now = used_by(refutation);
    let vars = standing(&now.vars, root.vars(), refutation.problem.vars());
    used.vars = either(&used.vars, &vars);
    used.rows = either(&used.rows, &now.rows);
}

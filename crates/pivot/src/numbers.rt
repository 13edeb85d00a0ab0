//! Rows of numbers: sums of products, and rows that are combined, turned and freed of a common divisor.
//! A number of a line is at most 1,000,000,000 in size and an end at most 200,000,000, so a sum of 24 products stays
//! below 4.8 × 10^18 and a combination of two rows below 2 × 10^18, within 64 bits. These sizes stand in the clauses, since
//! a row is a part of a line, lent for one call.
ghost use Rattle.std.specs.Prelude.{◌≡◌, ◌<◌, ◌≤◌, true, length, pos, negsuc, neg_ℤ, ◌<ℤ◌, slice_index_or, unsigned_abs};
ghost use Rattle.tableau.specs.Lines.{cleared, divide_all, gcd_all, reduced};
ghost use Rattle.problems.specs.Rows.{add, dot as product, scale};
ghost use Rattle.problems.specs.Whole.{all_within, within};

use testers::gcd::gcd;

/// The largest size of a number of a line.
pub const LARGEST: u64 = 1_000_000_000;

// What divides every number: a row that has no other common divisor is reduced.
const UNIT: u64 = 1;

// The greatest common divisor of a row.
fn common(row: &[i64]) -> u64
    ensures { result ≡ gcd_all 0 row.now }
{
    let mut g = 0;
    // A `fold` would go on past the unit.
    for a in row {
        if g == UNIT {
            return UNIT;
        }
        g = gcd(a.unsigned_abs(), g);
    }
    g
}

// Divides each number of the row.
fn divide(row: &mut [i64], g: i64)
    requires { pos 0 <ℤ g }
    ensures { row.new ≡ divide_all g row.old }
{
    for x in row.iter_mut() {
        *x = x.div_euclid(g);
    }
}

// Takes the common divisor out of the row.
fn reduce(row: &mut [i64])
    requires { all_within 2000000000000000000 row.old ≡ true }
    ensures { row.new ≡ reduced row.old }
{
    let g = common(row);
    if g > UNIT {
        // It fits, as a divisor of a number of the row; `try_from` would need an answer to a failure that cannot come.
        divide(row, g as i64);
    }
}

// p times the row and c times t.
fn mix(row: &mut [i64], p: i64, t: &[i64], c: i64)
    requires row { all_within 1000000000 row.old ≡ true }
    requires other { all_within 1000000000 t.now ≡ true }
    requires same { length row.old ≡ length t.now }
    requires factor { unsigned_abs p ≤ 1000000000 }
    requires multiple { unsigned_abs c ≤ 1000000000 }
    ensures { row.new ≡ add (scale p row.old) (scale c t.now) }
{
    // No lemma tells what a `zip` over `iter_mut` has written, so t is read by its index.
    for (i, x) in row.iter_mut().enumerate() {
        *x = p * *x + c * t[i];
    }
}

// Takes q out of the row by t. Where q does not stand in it, the row is left alone, which saves most of a pivot's work.
pub(crate) fn clear(row: &mut [i64], t: &[i64], q: usize)
    requires row { all_within 1000000000 row.old ≡ true }
    requires other { all_within 1000000000 t.now ≡ true }
    requires same { length row.old ≡ length t.now }
    requires inside { q < length t.now }
    ensures { row.new ≡ cleared q t.now row.old }
{
    let c = row[q];
    if c != 0 {
        mix(row, -t[q], t, c);
        reduce(row);
    }
}

// The sum of the products.
pub(crate) fn dot(a: &[i64], x: &[i64]) -> i64
    requires left { all_within 1000000000 a.now ≡ true }
    requires right { all_within 200000000 x.now ≡ true }
    requires same { length a.now ≡ length x.now }
    requires short { length a.now ≤ 24 }
    ensures { result ≡ product a.now x.now }
{
    let mut sum = 0;
    // A signed sum: `sum` of the library has no bound for it.
    for (number, value) in a.iter().zip(x) {
        sum += number * value;
    }
    sum
}

// Turns every sign. `divide` is a loop of another operator: one for both would take it as a closure, and be longer.
pub(crate) fn negate(row: &mut [i64])
    requires { all_within 1000000000 row.old ≡ true }
    ensures { row.new ≡ scale (negsuc 0) row.old }
{
    for x in row.iter_mut() {
        *x = -*x;
    }
}

// Whether every number of the row is of the size that a line may have; coefficients have another limit, and a test
// of their own.
pub(crate) fn small(row: &[i64]) -> bool
    ensures { result ≡ all_within 1000000000 row.now }
{
    row.iter().all(|a| a.unsigned_abs() <= LARGEST)
}

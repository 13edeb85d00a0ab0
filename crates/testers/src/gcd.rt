//! The greatest common divisor, which rows are reduced by and divisor leaves rest on.
ghost use Rattle.testers.specs.Gcd.{GreatestCommon, gcd as euclid};
ghost use Rattle.std.specs.Prelude.{◌≡◌};

/// The greatest common divisor, by Euclid's steps; that of 0 and a number is the number.
pub fn gcd(a: u64, b: u64) -> u64
    ensures value { result ≡ euclid a b }
    ensures greatest { GreatestCommon a b result }
{
    // Euclid's steps count no index: each makes the second number smaller.
    let mut x = a;
    let mut y = b;
    while y != 0 {
        let r = x % y;
        x = y;
        y = r;
    }
    x
}

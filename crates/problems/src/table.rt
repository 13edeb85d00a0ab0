//! Tables of a fixed size, filled from the front.
ghost use Rattle.std.specs.Prelude.{◌≡◌, ◌-◌, ◌++◌, length, take, replicate};

/// A table that begins with as many of these as it has room for, and goes on with the blank.
pub fn padded<T: Copy, const N: usize>(front: &[T], blank: T) -> [T; N]
    ensures value { result ≡ take N front.now ++ replicate (N - length front.now) blank }
{
    let mut all = [blank; N];
    let n = N.min(front.len());
    all[..n].copy_from_slice(&front[..n]);
    all
}

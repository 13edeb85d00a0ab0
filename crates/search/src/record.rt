//! Writing the record: one entry after the other into the caller's bytes, which stay as they are elsewhere.
ghost use Rattle.std.specs.Prelude.{◌≡◌, ◌+◌, ◌*◌, ◌<◌, ◌≤◌, true, [], ◌∷◌, ◌++◌, length, unsigned_abs};
ghost use Rattle.search.specs.Bytes.{four_bytes, leaf_bytes, map_of, multipliers, split_bytes, three_bytes};
ghost use Rattle.problems.specs.Whole.{all_within};

use super::refutation::Refutation;
use testers::leaf::Leaf;

// The first byte of an entry is the number of its kind.
#[derive(Clone, Copy, PartialEq, Eq, Debug)]
enum Kind {
    Split = 1,
    Sum = 2,
    Divisor = 3,
}

/// The record so far: lent bytes, the first `len` of which are written.
// Lent memory with its count: nothing here takes the heap.
#[derive(Drop)]
pub(crate) struct Record<'a> {
    pub(crate) bytes: &'a mut [u8],
    pub(crate) len: usize,
    ghost within: { len ≤ length bytes.now },
}

// A number so small keeps its value in four bytes.
fn big_endian(number: i64) -> [u8; 4]
    requires small { unsigned_abs number ≤ 1000000000 }
    ensures value { result ≡ four_bytes number }
{
    (number as i32).to_be_bytes()
}

// The bits of the multipliers that are not 0, the lowest for the first.
fn standing(ms: &[i64]) -> u32
    requires few { length ms.now ≤ 24 }
    ensures value { result ≡ map_of ms.now }
{
    match ms {
        [] => 0,
        [m, rest @ ..] => u32::from(*m != 0) + 2 * standing(rest),
    }
}

impl<'a> Record<'a> {
    ghost use Rattle.search.specs.Refuted.{leaf_of};
    ghost use Rattle.search.specs.Written.{Wrote};

    /// An empty record; the bytes are left as they are.
    pub(crate) fn over(bytes: &'a mut [u8]) -> Record<'a>
        ensures value { (result.bytes.now ≡ bytes.old) × (result.len ≡ 0) }
        ensures named { result.bytes.ghost_name ≡ bytes.entry.ghost_name }
    {
        Record { bytes, len: 0 }
    }

    // Writes the piece.
    fn put(&mut self, piece: &[u8])
        requires room { self.old.len + length piece.now ≤ length self.old.bytes.now }
        ensures { Wrote piece.now self.old self.new }
    {
        let end = self.len + piece.len();
        self.bytes[self.len..end].copy_from_slice(piece);
        self.len = end;
    }

    /// Writes a split, whose variable is counted from 0.
    pub(crate) fn write_split(&mut self, cut: (usize, i64))
        requires variable { cut.0 < 12 }
        requires small { unsigned_abs cut.1 ≤ 1000000000 }
        requires room { self.old.len + 6 ≤ length self.old.bytes.now }
        ensures { Wrote (split_bytes cut.0 cut.1) self.old self.new }
    {
        let (variable, k) = cut;
        // A variable is below 12, so the cast keeps it.
        self.put(&[Kind::Split as u8, variable as u8 + 1]);
        self.put(&big_endian(k));
    }

    // Writes the multipliers that are not 0.
    fn write_multipliers(&mut self, ms: &[i64])
        requires small { all_within 1000000000 ms.now ≡ true }
        requires room { self.old.len + 4 * length ms.now ≤ length self.old.bytes.now }
        ensures { Wrote (multipliers ms.now) self.old self.new }
    {
        for y in ms {
            if *y != 0 {
                self.put(&big_endian(*y));
            }
        }
    }

    // Writes a leaf that is a sum.
    fn write_sum(&mut self, ms: &[i64])
        requires few { length ms.now ≤ 24 }
        requires small { all_within 1000000000 ms.now ≡ true }
        requires room { self.old.len + 100 ≤ length self.old.bytes.now }
        ensures { Wrote (2 ∷ three_bytes (map_of ms.now) ++ multipliers ms.now) self.old self.new }
    {
        let [_, high, middle, low] = standing(ms).to_be_bytes();
        self.put(&[Kind::Sum as u8, high, middle, low]);
        self.write_multipliers(ms);
    }

    // Writes a leaf that is a divisor, whose row is counted from 0. Both are below 256, so the casts keep them.
    fn write_divisor(&mut self, row: usize, g: usize)
        requires row { row < 12 }
        requires small { g ≤ 255 }
        requires room { self.old.len + 3 ≤ length self.old.bytes.now }
        ensures { Wrote (3 ∷ (row + 1) ∷ g ∷ []) self.old self.new }
    {
        self.put(&[Kind::Divisor as u8, row as u8 + 1, g as u8]);
    }

    /// Writes a leaf.
    pub(crate) fn write_leaf(&mut self, refutation: &Refutation)
        requires room { self.old.len + 100 ≤ length self.old.bytes.now }
        ensures after { Wrote (leaf_bytes (leaf_of refutation.now)) self.old self.new }
        ensures short { self.new.len ≤ self.old.len + 100 }
    {
        let problem = refutation.problem;
        match refutation.leaf {
            Leaf::Sum(ms) => {
                self.write_sum(&ms[0..problem.vars().len() + problem.row_ends().len()]);
            }
            Leaf::Divisor { row, g } => self.write_divisor(*row, *g),
        }
    }
}

#[cfg(test)]
mod tests;

//! The answer of a search as it is told.
use super::hex::Hex;
use problems::quantity::MOST;
use search::found::Verdict;
use std::fmt;

/// The word of the answer, how many variables there are, the boxes tested, the places of the path used, and the record.
#[derive(Clone, Copy)]
pub struct Shown<'a> {
    pub verdict: Verdict,
    pub variables: usize,
    pub boxes: usize,
    pub deepest: usize,
    pub record: &'a [u8],
}

// A plan: the numbers of the first n variables.
fn show_plan<W: fmt::Write>(
    point: [i64; MOST],
    n: usize,
    f: &mut fmt::Formatter<W>,
) -> fmt::Result {
    f.write_str("plan")?;
    for x in point.iter().take(n) {
        write!(f, " {x}")?;
    }
    Ok(())
}

impl fmt::Display for Shown<'_> {
    fn fmt<W: fmt::Write>(&self, f: &mut fmt::Formatter<W>) -> fmt::Result {
        match self.verdict {
            Verdict::Plan(point) => show_plan(point, self.variables, f)?,
            Verdict::None(_) => f.write_str("none core")?,
            Verdict::Spent => f.write_str("spent")?,
        }
        let boxes = self.boxes;
        let bytes = self.record.len();
        let record = Hex(self.record);
        write!(f, " boxes {boxes} bytes {bytes} record {record}")
    }
}

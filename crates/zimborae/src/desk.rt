//! The desk: the draft at hand and the problem that is open.
ghost use Rattle.std.specs.Prelude.{◌≡◌, ◌≤◌, length, take, unsigned_abs};
ghost use Rattle.zimborae.specs.Desk.{adds_row, answered, at_first, begins, lent, lent_for, opens, over_budget, shown_reply, standing};
ghost use Rattle.search.specs.Asked.{granted, reply_of};
ghost use Rattle.search.specs.Search.{search_box};
ghost use Rattle.testers.specs.Halving.{halving};
ghost use Rattle.problems.specs.View.{box_of, rows_of};

use super::shown::Shown;
use super::stop::Stop;
use book::draft::Draft;
use problems::problem::Problem;
use problems::quantity::{RowEnds, Span};
use problems::refusal::Refused;
use search::found::Found;
use search::open_split::OpenSplit;
use search::search_box::{BOX_BYTES, MOST_BOXES, search_box};
use testers::halving::Halving;

/// What stands between two calls.
#[derive(Drop)]
pub struct Desk {
    draft: Option<Draft>,
    problem: Option<Problem>,
}

// As many boxes as the budget can mean; the cast keeps what is clamped.
fn boxes_of(budget: i64) -> usize
    ensures value { result ≡ lent_for budget }
{
    budget.clamp(0, MOST_BOXES) as usize
}

// Searches with the front of the buffers, as much as the budget can need.
fn search_lent(
    problem: &Problem,
    budget: i64,
    bytes: &mut [u8],
    path: &mut [OpenSplit],
) -> Result<Found, Refused>
    ensures answer { 1000000 ≤ length bytes.old → 10000 ≤ length path.old → reply_of (length (box_of problem.now).vars) (lent budget bytes.new) result ≡ granted (over_budget budget) (search_box halving (rows_of problem.now) (box_of problem.now) (unsigned_abs budget)) }
{
    let boxes = boxes_of(budget);
    let room = bytes.len().min(BOX_BYTES * boxes);
    let places = path.len().min(boxes);
    search_box(
        &mut Halving,
        problem,
        budget,
        &mut bytes[..room],
        &mut path[..places],
    )
}

// The first n of the bytes, or all of them.
fn front(bytes: &[u8], n: usize) -> &[u8]
    ensures value { result.now ≡ take n bytes.now }
{
    bytes.get(..n).unwrap_or(bytes)
}

impl Desk {
    /// The first draft, and nothing open.
    pub fn first() -> Desk
        ensures value { standing result ≡ at_first }
    {
        Desk {
            draft: Some(Draft::first()),
            problem: None,
        }
    }

    /// Begins the draft afresh, also where the last one was opened.
    pub fn begin(&mut self, n: i64, ends: &[Span]) -> Result<(), Stop>
        ensures value { result ≡ (begins (standing self.old) n ends.now).reply }
        ensures after { standing self.new ≡ (begins (standing self.old) n ends.now).after }
    {
        let draft = self.draft.get_or_insert_with(Draft::first);
        draft.new(n, ends).map_err(Stop::Refused)
    }

    /// Adds a row to the draft, and tells the number of its quantity.
    pub fn add_row(&mut self, coefs: &[i64], ends: RowEnds) -> Result<usize, Stop>
        ensures value { result ≡ (adds_row (standing self.old) coefs.now ends).reply }
        ensures after { standing self.new ≡ (adds_row (standing self.old) coefs.now ends).after }
    {
        let draft = self.draft.as_mut().ok_or(Stop::NoDraft)?;
        draft.add_row(coefs, ends).map_err(Stop::Refused)
    }

    /// Opens the draft; there is none then.
    pub fn open(&mut self) -> Result<(), Stop>
        ensures value { result ≡ (opens (standing self.old)).reply }
        ensures after { standing self.new ≡ (opens (standing self.old)).after }
    {
        let draft = self.draft.take().ok_or(Stop::NoDraft)?;
        self.problem = Some(draft.open());
        Ok(())
    }

    /// Searches the open problem for a plan.
    pub fn ask<'a>(
        &self,
        budget: i64,
        bytes: &'a mut [u8],
        path: &mut [OpenSplit],
    ) -> Result<Shown<'a>, Stop>
        ensures answer { 1000000 ≤ length bytes.old → 10000 ≤ length path.old → shown_reply result ≡ answered (standing self.now).problem budget }
    {
        let problem = self.problem.as_ref().ok_or(Stop::NothingOpen)?;
        let found = search_lent(problem, budget, bytes, path).map_err(Stop::Refused)?;
        Ok(Shown {
            verdict: found.verdict,
            variables: problem.variables(),
            boxes: found.boxes,
            deepest: found.deepest,
            record: front(front(bytes, BOX_BYTES * boxes_of(budget)), found.bytes),
        })
    }
}

//! The search of a box: one call, refused or answered.
ghost use Rattle.search.specs.Asked.{asked, bytes_told, bytes_written, granted, path_after, record_after, refusal, reply_of};
ghost use Rattle.search.specs.Promise.{ReplyTruthful};
ghost use Rattle.std.specs.Prelude.{◌≡◌, cond, Err, Ok, length, unsigned_abs};

use super::found::Found;
use super::open_split::OpenSplit;
use super::record::Record;
use super::run::run;
use lent::stack::Stack;
use problems::problem::Problem;
use problems::refusal::{Refusal, Refused};
use testers::tester::Tester;

/// No budget is larger.
pub const MOST_BOXES: i64 = 10_000;

/// The record has room for so many bytes a box.
pub const BOX_BYTES: usize = 100;

// Refuses where a fault is found. Book has its own, whose place is a count; here the place may be the budget as it was
// told, below 0 too.
fn refuse_if(fault: bool, why: Refusal, place: i64) -> Result<(), Refused>
    ensures { result ≡ cond fault (Err (record { why = why; place = place })) (Ok tt) }
{
    if fault {
        Err(Refused { why, place })
    } else {
        Ok(())
    }
}

// How many boxes may be tested, with these buffers.
fn admit(budget: i64, bytes: usize, places: usize) -> Result<usize, Refused>
    ensures { result ≡ granted (refusal budget bytes places) (unsigned_abs budget) }
{
    refuse_if(budget < 1 || budget > MOST_BOXES, Refusal::Budget, budget)?;
    // From 1 to the most boxes, so the cast keeps it.
    let boxes = budget as usize;
    refuse_if(bytes < BOX_BYTES * boxes, Refusal::Buffer, 1)?;
    refuse_if(places < boxes, Refusal::Buffer, 2)?;
    Ok(boxes)
}

/// Searches the problem's box for a plan, with at most `budget` tests.
///
/// `bytes` is the record, 100 bytes a box, and `path` has one entry a box; of both, what is not used stays as it was,
/// and every place of the path that was used is blank afterwards.
pub fn search_box<T: Tester>(
    tester: &mut T,
    problem: &Problem,
    budget: i64,
    bytes: &mut [u8],
    path: &mut [OpenSplit],
) -> Result<Found, Refused>
    ensures answer { reply_of problem.now.ends.vars.n bytes.new result ≡ asked (T.meaning tester.old) problem.now budget (length bytes.old) (length path.old) }
    ensures count { bytes_told result ≡ bytes_written (asked (T.meaning tester.old) problem.now budget (length bytes.old) (length path.old)) }
    ensures written { bytes.new ≡ record_after (asked (T.meaning tester.old) problem.now budget (length bytes.old) (length path.old)) bytes.old }
    ensures path { path.new ≡ path_after (asked (T.meaning tester.old) problem.now budget (length bytes.old) (length path.old)) path.old }
    ensures same { T.meaning tester.new ≡ T.meaning tester.old }
    ensures truthful { ReplyTruthful (T.meaning tester.old) problem.now budget (reply_of problem.now.ends.vars.n bytes.new result) }
{
    let boxes = admit(budget, bytes.len(), path.len())?;
    let mut written = Record::over(&mut *bytes);
    let mut stack = Stack::over(&mut *path);
    let found = run(tester, problem, boxes, &mut written, &mut stack);
    stack.clear();
    Ok(found)
}

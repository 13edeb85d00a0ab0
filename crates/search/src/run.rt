//! The walk from its first box to its verdict.
ghost use Rattle.std.specs.Prelude.{◌≡◌, ◌*◌, ◌≤◌, length, drop};
ghost use Rattle.search.specs.Search.{search_box};
ghost use Rattle.search.specs.Shown.{found_of};
ghost use Rattle.search.specs.Walk.{Blanked};
ghost use Rattle.problems.specs.View.{box_of, rows_of};

use super::found::{Found, Verdict};
use super::open_split::OpenSplit;
use super::record::Record;
use super::walk::Walk;
use lent::stack::Stack;
use problems::problem::Problem;
use testers::tester::Tester;

// Tests box by box until there is a verdict or the budget is used up.
pub(crate) fn run<T: Tester>(
    tester: &mut T,
    root: &Problem,
    budget: usize,
    written: &mut Record,
    stack: &mut Stack<OpenSplit>,
) -> Found
    requires budget { budget ≤ 10000 }
    requires room { 100 * budget ≤ length written.old.bytes.now }
    requires place { budget ≤ length stack.old.slots.now }
    requires none { (written.old.len ≡ 0) × (stack.old.len ≡ 0) }
    ensures answer { found_of root.now.ends.vars.n written.new.bytes.now result ≡ search_box (T.meaning tester.old) (rows_of root.now) (box_of root.now) budget }
    ensures room { result.bytes ≤ 100 * budget }
    ensures kept { drop result.bytes written.new.bytes.now ≡ drop result.bytes written.old.bytes.now }
    ensures long { length written.new.bytes.now ≡ length written.old.bytes.now }
    ensures blanks { Blanked stack.old.slots.now result.deepest stack.new.slots.now stack.new.len }
    ensures named { (written.new.bytes.ghost_name ≡ written.old.bytes.ghost_name) × (stack.new.slots.ghost_name ≡ stack.old.slots.ghost_name) }
    ensures same { T.meaning tester.new ≡ T.meaning tester.old }
{
    let mut walk = Walk::begin(root, budget);
    // The walk counts its boxes: a range would count them twice.
    while walk.boxes < budget {
        if let Some(verdict) = walk.step(tester, written, stack) {
            return walk.tell(written, verdict);
        }
    }
    walk.tell(written, Verdict::Spent)
}

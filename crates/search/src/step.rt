//! One step of the walk.
ghost use Rattle.std.specs.Prelude.{◌≡◌, ◌+◌, ◌<◌, ◌≤◌, true, length};
ghost use Rattle.search.specs.Search.{Found, Search, next, told, with_leaf, with_split};
ghost use Rattle.search.specs.Walk.{Going, Stepped, after, entries_on, opens_of, reached};
ghost use Rattle.problems.specs.Box.{splits};
ghost use Rattle.testers.specs.Leaf.{formed};
ghost use Rattle.problems.specs.View.{box_of, rows_of};
ghost use Rattle.testers.specs.Told.{leaf_in};

use super::found::Verdict;
use super::note::note;
use super::open_split::OpenSplit;
use super::record::Record;
use super::refutation::Refutation;
use super::walk::Walk;
use lent::stack::Stack;
use testers::answer::Answer;
use testers::leaf::Leaf;
use testers::tester::Tester;

impl<'a> Walk<'a> {
    // Writes the split, keeps it open, and goes to its lower half.
    fn divide(&mut self, written: &mut Record, stack: &mut Stack<OpenSplit>, cut: (usize, i64))
        requires splits { splits cut.0 cut.1 (box_of self.old.at).vars ≡ true }
        requires going { Going self.old written.old stack.old }
        ensures state { reached self.new written.new stack.new ≡ with_split cut.0 cut.1 (reached self.old written.old stack.old) }
        ensures moved { Stepped self.old self.new written.old written.new stack.old stack.new }
    {
        let vars = self.at.saved();
        self.boxes += 1;
        written.write_split(cut);
        let _ = stack.push(OpenSplit { cut, vars });
        self.deepest = self.deepest.max(stack.len());
        // What is split has both halves, so there is always one, here and in `refute`.
        if let Some(half) = vars.below(cut) {
            let _ = self.at.put_vars(half);
        }
    }

    // Writes the leaf, notes the ends that it uses, and goes to the upper half of the latest open split;
    // where none is open, the box has no plan.
    fn refute(
        &mut self,
        written: &mut Record,
        stack: &mut Stack<OpenSplit>,
        leaf: &Leaf,
    ) -> Option<Verdict>
        requires formed { formed (rows_of self.old.at) (box_of self.old.at) (leaf_in self.old.at.ends.vars.n self.old.at.ends.m leaf.now) ≡ true }
        requires going { Going self.old written.old stack.old }
        ensures goes { (further : Search → Found) → next further (with_leaf (rows_of self.old.at) (box_of self.old.root.now) (leaf_in self.old.at.ends.vars.n self.old.at.ends.m leaf.now) (reached self.old written.old stack.old)) (opens_of (box_of self.old.at) (entries_on stack.old)) ≡ after self.old.root.now.ends.vars.n further (reached self.new written.new stack.new) result }
        ensures moved { Stepped self.old self.new written.old written.new stack.old stack.new }
    {
        self.boxes += 1;
        let refutation = Refutation {
            problem: &self.at,
            leaf,
        };
        written.write_leaf(&refutation);
        note(&mut self.used, self.root, &refutation);
        let Some(split) = stack.pop() else {
            return Some(Verdict::None(self.used));
        };
        if let Some(half) = split.vars.above(split.cut) {
            let _ = self.at.put_vars(half);
        }
        None
    }

    /// Tests the box that waits and does what the answer asks for: a verdict, or none where another box waits.
    pub(crate) fn step<T: Tester>(
        &mut self,
        tester: &mut T,
        written: &mut Record,
        stack: &mut Stack<OpenSplit>,
    ) -> Option<Verdict>
        requires going { Going self.old written.old stack.old }
        ensures goes { (further : Search → Found) → told (rows_of self.old.root.now) (box_of self.old.root.now) further (reached self.old written.old stack.old) (T.meaning tester.old (rows_of self.old.root.now) (box_of self.old.at)) ≡ after self.old.root.now.ends.vars.n further (reached self.new written.new stack.new) result }
        ensures moved { Stepped self.old self.new written.old written.new stack.old stack.new }
        ensures same { T.meaning tester.new ≡ T.meaning tester.old }
    {
        match tester.test(&self.at) {
            Answer::Empty(leaf) => self.refute(written, stack, &leaf),
            Answer::Point(x) => {
                self.boxes += 1;
                Some(Verdict::Plan(x))
            }
            Answer::Split(cut) => {
                self.divide(written, stack, cut);
                None
            }
        }
    }
}

//! A leaf beside its problem.
ghost use Rattle.std.specs.Prelude.{◌≡◌, true};
ghost use Rattle.problems.specs.View.{box_of, rows_of};
ghost use Rattle.testers.specs.Leaf.{formed};
ghost use Rattle.testers.specs.Told.{leaf_in};

use problems::problem::Problem;
use testers::leaf::Leaf;

/// A problem, and a leaf of the form that a leaf of it has.
#[derive(Clone, Copy)]
pub(crate) struct Refutation<'a> {
    pub(crate) problem: &'a Problem,
    pub(crate) leaf: &'a Leaf,
    ghost formed: { formed (rows_of problem.now) (box_of problem.now) (leaf_in problem.now.ends.vars.n problem.now.ends.m leaf.now) ≡ true },
}

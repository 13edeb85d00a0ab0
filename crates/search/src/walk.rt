//! Where a walk over split boxes stands.
ghost use Rattle.std.specs.Prelude.{◌≡◌, ◌≤◌};
ghost use Rattle.search.specs.Search.{unused};
ghost use Rattle.search.specs.Shown.{uses_of};

use super::found::{Found, Verdict};
use super::record::Record;
use super::uses::Uses;
use problems::problem::Problem;

/// The whole box, the box that waits, and what has been told so far.
// The record and the stack are not fields: when a struct that lends a slice lies in another, nothing tells the owner
// what the slice ends with.
#[derive(Clone, Copy)]
pub(crate) struct Walk<'a> {
    pub(crate) root: &'a Problem,
    pub(crate) at: Problem,
    pub(crate) budget: usize,
    pub(crate) boxes: usize,
    pub(crate) used: Uses,
    pub(crate) deepest: usize,
    ghost limit: { budget ≤ 10000 },
    ghost within: { boxes ≤ budget },
}

impl<'a> Walk<'a> {
    /// Nothing is told so far, and the whole box waits.
    pub(crate) fn begin(root: &'a Problem, budget: usize) -> Walk<'a>
        requires { budget ≤ 10000 }
        ensures at { (result.root.now ≡ root.now) × (result.at ≡ root.now) }
        ensures counts { (result.budget ≡ budget) × (result.boxes ≡ 0) × (result.deepest ≡ 0) }
        ensures used { uses_of result.used ≡ unused }
    {
        Walk {
            root,
            at: *root,
            budget,
            boxes: 0,
            used: Uses::none(),
            deepest: 0,
        }
    }

    /// What is told with the verdict.
    pub(crate) fn tell(&self, written: &Record, verdict: Verdict) -> Found
        ensures { result ≡ record { verdict = verdict; boxes = self.now.boxes; bytes = written.now.len; deepest = self.now.deepest } }
    {
        Found {
            verdict,
            boxes: self.boxes,
            bytes: written.len,
            deepest: self.deepest,
        }
    }
}

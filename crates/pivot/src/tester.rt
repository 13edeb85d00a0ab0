//! The pivot tester, made with a limit on the pivots of one test.
ghost use Rattle.pivot.specs.Limit.{granted_limit, limit_of};
ghost use Rattle.tableau.specs.Pivot.{pivot};
ghost use Rattle.std.specs.Prelude.{◌≡◌};
ghost use Rattle.tableau.proofs.Laws.{pivot_laws};

use super::test::test_by_pivots;
use problems::problem::Problem;
use problems::refusal::{Refusal, Refused};
use testers::answer::Answer;
use testers::tester::Tester;

/// The largest pivot limit.
pub const MOST_PIVOTS: i64 = 1000;

/// The tester that pivots, at most `limit` times a test.
#[derive(Clone, Copy)]
pub struct Pivot {
    limit: u32,
}

impl Pivot {
    /// A tester with this limit; refused as out of range, at place 0, unless it is 0 to 1,000.
    pub fn new(limit: i64) -> Result<Pivot, Refused>
        ensures value { limit_of result ≡ granted_limit limit }
    {
        // One test of both ends: a chain of `ok`, `filter` and `ok_or` would be longer.
        match u32::try_from(limit) {
            Ok(pivots) if limit <= MOST_PIVOTS => Ok(Pivot { limit: pivots }),
            _ => Err(Refused {
                why: Refusal::Range,
                place: 0,
            }),
        }
    }
}

impl Tester for Pivot {
    ghost meaning = { λ t. pivot t.limit };

    ghost lawful = { λ t. pivot_laws t.limit };

    fn test(&mut self, problem: &Problem) -> Answer {
        test_by_pivots(problem, self.limit)
    }
}

//! The pivot tester: general simplex over whole-number tableaux, by Bland's rule. What it means is defined in the crate
//! `tableau`, and proved there to keep the laws of a tester.
//!
//! | module | has |
//! |---|---|
//! | `start`, `board`, `choose`, `exchange`, `run` | the first tableau, the board of a run, the two choices of a pivot, the pivot, and a run of them |
//! | `numbers` | rows of numbers and their reduced form |
//! | `settle` | what the last tableau says |
//! | `test`, `tester` | the answer, and the tester |
#![tactic(auto)]

mod board;
mod choose;
mod exchange;
mod numbers;
mod run;
mod settle;
mod start;
pub mod test;
pub mod tester;

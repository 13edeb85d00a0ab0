//! Tableaux: what the pivot tester means, and its laws. The definitions are in `specs/`, and nothing here runs; the code
//! that is proved equal to them is the crate `pivot`.
//!
//! | module | has |
//! |---|---|
//! | `line` | the equation of a basic quantity |
//! | `run` | what a run of pivots goes by, and how it stops |
//! | `fraction` | the value of a quantity |
#![tactic(auto)]

pub mod fraction;
pub mod line;
pub mod run;

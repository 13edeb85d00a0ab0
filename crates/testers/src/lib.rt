//! Testers: what is said of a box, and who says it.
//!
//! | module | has |
//! |---|---|
//! | `leaf`, `answer`, `tester` | what is said of a box, and the promise of those who say it |
//! | `gcd` | the greatest common divisor |
//! | `row_in_box` | one row over the variables' ends |
//! | `row_check`, `middle`, `halving` | the halving tester and its parts |
#![tactic(auto)]

pub mod answer;
pub mod gcd;
pub mod halving;
pub mod leaf;
pub mod middle;
pub mod row_check;
pub mod row_in_box;
pub mod tester;

//! Problems: quantities with their ends, rows, and the boxes that they make.
//!
//! | module | has |
//! |---|---|
//! | `quantity` | the ends of variables and rows, and coefficients |
//! | `ranges` | the ranges of numbers, and the order of ends |
//! | `vars`, `ends`, `problem` | the tables of a problem, each with what its type carries |
//! | `build`, `read`, `split`, `blank` | making a problem, reading it, its halves, and a table of none |
//! | `table` | tables filled from the front |
//! | `refusal` | why a call is refused |
#![tactic(auto)]

pub mod blank;
pub mod build;
pub mod ends;
pub mod problem;
pub mod quantity;
pub mod ranges;
pub mod read;
pub mod refusal;
pub mod split;
pub mod table;
pub mod vars;

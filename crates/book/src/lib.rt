//! The book of a problem, in the order in which a caller meets it:
//!
//! - `draft`: a problem is stated, its variables first and then row by row, and opened.
#![tactic(auto)]

pub mod draft;
mod fault;
#[cfg(test)]
mod tests;

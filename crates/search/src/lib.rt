//! The search over split boxes, and the record that it leaves.
//!
//! | module | has |
//! |---|---|
//! | `search_box` | the one call: refused or answered |
//! | `found`, `uses` | what an answer tells |
//! | `open_split` | the entries of a path, a stack in the caller's memory |
//! | `run`, `step`, `walk` | the walk: from its first box to its verdict, one box, where it stands |
//! | `refutation`, `record`, `note` | a leaf with its problem, writing entries, and noting the ends that leaves use |
#![tactic(auto)]

pub mod found;
mod note;
pub mod open_split;
mod record;
mod refutation;
mod run;
pub mod search_box;
mod step;
pub mod uses;
mod walk;

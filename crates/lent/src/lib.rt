//! A stack over memory that its owner lends, had once for every kind of entry. It knows nothing of planning.
//!
//! | module | has |
//! |---|---|
//! | `entry` | what a stack can hold: an entry names its blank |
//! | `stack` | the stack |
#![tactic(auto)]

pub mod entry;
pub mod stack;

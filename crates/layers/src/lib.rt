//! Layers: testers that look first and else ask the tester below.
//!
//! | module | has |
//! |---|---|
//! | `divisor` | the divisor layer over any tester |
//! | `pile` | as many layers as are asked for, up to four |
#![tactic(auto)]

pub mod divisor;
pub mod pile;

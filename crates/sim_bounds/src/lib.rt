//! Bounds on a target's steps, as numbers.
#![tactic(auto)]

mod laws;

pub use laws::{bounds_are_closed, programs_reach_half};

//! A text in which the functions that aren't reached are declared alone.
#![tactic(auto)]

mod keep;

pub use keep::keep_reached;

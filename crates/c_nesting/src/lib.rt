//! What is counted for the nesting at the places of productions.
#![tactic(auto)]

pub mod counts;

//! What each production of a statement of C makes of its parts: one function for each.
#![tactic(auto)]

pub mod statements;

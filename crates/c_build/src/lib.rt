//! What each production of an expression of C makes of its parts: one function for each.
#![tactic(auto)]

pub mod expressions;

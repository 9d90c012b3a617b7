//! What each production of an external of C, and of a whole text, makes of its parts: one function for each.
#![tactic(auto)]

pub mod externals;

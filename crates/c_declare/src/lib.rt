//! What each production of a declaration of C makes of its parts: one function for each.
#![tactic(auto)]

pub mod declarations;

//! Parts of statements of C, and their declarations, with calls of helper functions in place of operators.
#![tactic(auto)]

pub mod locals;
pub mod parts;

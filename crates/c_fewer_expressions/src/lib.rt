//! Expressions of C with calls of helper functions in place of operators, each with what it is judged to be.
#![tactic(auto)]

mod calls;
mod expressions;
mod names;

pub use expressions::fewer;

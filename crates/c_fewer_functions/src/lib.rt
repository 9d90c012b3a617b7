//! Statements and functions of C with calls of helper functions in place of operators.
#![tactic(auto)]

mod bodies;
mod statements;

pub use bodies::fewer_in_function;

//! Rows of parts that a parser of C has read, and the types that declarators make of their layers.
#![tactic(auto)]

pub mod rows;
pub mod types;

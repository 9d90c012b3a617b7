//! The grammar of C: its productions, what follows from them, and the tables that a parser goes by.
//! The machine of tokens and values that reads a unit stands in the definitions; a parser is one that does what it does.
#![tactic(auto)]

pub mod categories;
pub mod laws;
pub mod names;
pub mod places;
pub mod tables;

//! What the words of a declaration of C say: types, and structs with their members.
#![tactic(auto)]

pub mod words;

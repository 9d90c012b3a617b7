//! Typed units within the limits that a text's tokens spell are programs.
#![tactic(auto)]

mod laws;

pub use laws::{spelled_units_are_programs, texts_are_programs, tokens_are_of_text};

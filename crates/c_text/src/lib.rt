//! Laws for who makes trees of C texts: the tokens of a text are a list as the parser asks for.
#![tactic(auto)]

mod laws;

pub use laws::{prepared_texts_end, read_texts_end};

//! Trees of C that have plain code: typed texts within the limits whose declarations stand in blocks, as the grammar and fewer operators leave them.
#![tactic(auto)]

mod laws;

pub use laws::{
    statements_stay_in_blocks, texts_stay_in_blocks, typed_texts_are_fit, units_declare_in_blocks,
};

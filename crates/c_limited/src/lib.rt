//! A typed text of C within the limits is one whose runs stay valid.
#![tactic(auto)]

mod laws;

pub use laws::{narrow_elements_are_small, operands_are_narrow, typed_texts_are_limited};

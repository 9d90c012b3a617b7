//! What instructions have to know of types, by the numbers of the types: kinds, words and operators.
#![tactic(auto)]

mod kinds;
mod operations;
mod side;

pub use kinds::{fetch, follow, kind};
pub use operations::operation;
pub use side::{Side, element_words, side_of, word_count};

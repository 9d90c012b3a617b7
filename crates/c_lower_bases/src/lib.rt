//! Where the objects of file scope of a typed text of C lie: their words, which of them are given first values, and the ends of
//! what has one and of what has none.
#![tactic(auto)]

mod bases;
mod sizes;

pub use bases::{Ends, file_bases, low, words_given};
pub use sizes::{file_sizes, firsts_given};

//! Sums over expressions, types and first values of C: their weight, and whether a type in them has too many words.
#![tactic(auto)]

mod expressions;
mod sum;
mod wide;

pub use expressions::{count, count_type};
pub use sum::{Sum, told};
pub use wide::{has_wide, is_wide};

//! Expressions, statements and bodies of C with fewer operators do what those do from which they are made.
#![tactic(auto)]

mod laws;

pub use laws::{bodies_are_kept, expressions_are_kept, statements_are_kept, trees_are_the_same};

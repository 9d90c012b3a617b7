//! The string literals of C's statements that are objects, in the order of the text.
#![tactic(auto)]

mod expressions;
mod locals;
mod statements;
mod values;

pub use expressions::{expression_literals, maybe_literals};
pub use statements::{list_literals, statement_literals};
pub use values::first_literals;

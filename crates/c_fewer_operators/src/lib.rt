//! Operators of C as trees with calls of helper functions, by the types of their sides.
#![tactic(auto)]

mod calls;
mod here;
mod operators;
mod places;
mod signs;
mod types;

pub use calls::{as_type, call_one};
pub use here::Here;
pub use operators::{element_tree, operator_tree, unary_tree};
pub use places::{assignment_tree, step_tree};
pub use types::is_unsigned;

//! Trees of C with calls of helper functions in place of operators, from those of their parts, each with what it is judged to be;
//! and types as they are written with fewer operators.
#![tactic(auto)]

mod parts;
mod remade;
mod trees;
mod types;
mod written;

pub use parts::{
    remade_arrow, remade_assignment, remade_binary, remade_cast, remade_choice, remade_comma,
    remade_element, remade_leaf, remade_member, remade_step, remade_unary,
};
pub use remade::Remade;
pub use trees::{constant_tree, null, string};
pub use written::fewer_in_type;

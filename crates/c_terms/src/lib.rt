//! Trees of C from their parts. The types of a text of C as they are written.
#![tactic(auto)]

mod expressions;
mod statements;
mod terms;
mod types;

pub use expressions::{
    arrow, assign, binary, call, cast, comma, conditional, index, member, number, step, unary,
    variable,
};
pub use statements::{block, local, looped, set, when};
pub use terms::type_tree;
pub use types::{array, array_of, function, pointer};

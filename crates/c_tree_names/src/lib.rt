//! The names that stand in trees of C, in the order of the text.
#![tactic(auto)]

mod expressions;
mod items;
mod sets;
mod statements;
mod values;

pub use expressions::add_expression;
pub use items::{add_bodies, add_body, add_first_values};
pub use sets::put_name;
pub use statements::add_statement;

//! Expressions of C and the types that are written in a text: what they are, by what is declared where they stand.
#![tactic(auto)]

mod calls;
mod collected;
mod expressions;
mod leaves;
mod names;

pub use calls::{after_call, through};
pub use collected::Collected;
pub use expressions::{judge, written};
pub use names::{format_of, is_function_name, name_in};

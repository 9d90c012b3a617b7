//! Plain code of the expressions of C: for each its value, or the place that it is.
#![tactic(auto)]

mod calls;
mod expressions;
mod leaves;

pub use expressions::{place, used, value};

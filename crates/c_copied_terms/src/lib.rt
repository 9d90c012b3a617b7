//! Copies of trees of C.
#![tactic(auto)]

mod copies;
mod leaves;
mod values;

pub use copies::{copied, copied_type};
pub use values::copied_first;

//! Declarations of C inside functions with calls of helper functions in place of operators.
#![tactic(auto)]

mod declarations;
mod values;

pub use declarations::fewer_in_local;
pub use values::{fewer_in_first, fewer_in_value, many};

//! Objects of file scope, structs and parameters of C with calls of helper functions in place of operators.
#![tactic(auto)]

mod declarations;
mod objects;
mod parameters;
mod structs;
mod values;

pub use objects::fewer_in_object;
pub use parameters::fewer_in_parameters;
pub use structs::fewer_in_struct;

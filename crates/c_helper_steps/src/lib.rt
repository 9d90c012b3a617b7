//! Trees of the bodies of helper functions, by steps that each take the last of what is made and make something of it.
#![tactic(auto)]

mod bodies;
mod making;
mod parts;
mod steps;

pub use bodies::made;
pub use steps::{Step, TypeName};

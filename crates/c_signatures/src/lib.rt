//! Functions of C as their declarations write them: their results and their parameters, and the scope of their bodies.
#![tactic(auto)]

mod blocks;
mod bodies;
mod parameters;
mod signature;

pub use blocks::{begin_block, end_block};
pub use bodies::{enter_body, leave_body};
pub use parameters::{Parameter, add, declare_again, judge_parameters, parameter_type};
pub use signature::{Signature, judge_signature, result_type};

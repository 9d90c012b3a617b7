//! What operators, names and calls of C add behind the code of their operands.
#![tactic(auto)]

mod calls;
mod known;
mod literals;
mod operators;
mod places;
mod steps;

pub use calls::{Called, are_several, callee_of, is_format_name};
pub use known::{known_value, leaf, pass, put_known};
pub use literals::arguments_passed;
pub use operators::{comparison_jump, junction_of, operator, signed};
pub use places::{after_value, fetch, takes_place};
pub use steps::{aim, put_built_in, put_helper, put_truth, stepped, wait};

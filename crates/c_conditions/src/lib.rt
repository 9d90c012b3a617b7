//! What statements of C ask of their expressions, and what is told of a statement by its parts.
#![tactic(auto)]

mod around;
mod conditions;
mod labels;
mod verdicts;

pub use around::Around;
pub use conditions::{
    judge_condition, judge_effect, judge_number, judge_return, judge_step, judge_test,
};
pub use labels::{Labels, add_label, labelled};
pub use verdicts::{Tested, behind, beside, broken, settled, together};

//! How many jumps the code of a tree of C has, so that a block can be named before the code in front of it stands.
#![tactic(auto)]

mod expressions;
mod names;
mod numbers;
mod statements;
mod values;

pub use expressions::{
    arguments_jumps_of, jumps_of, maybe_jumps_of, maybe_truth_jumps_of, truth_jumps_of,
};
pub use names::{is_known_to_helpers, is_word, names_known};
pub use numbers::{next, plus};
pub use statements::{
    case_jumps_of, part_jumps_of, parts_jumps_of, statement_jumps_of, statements_jumps_of,
};
pub use values::{first_jumps_of, maybe_first_jumps_of};

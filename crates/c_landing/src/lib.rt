//! Where a piece of lowered code begins, what it leaves, and how pieces are put together: values that need no evaluation, operators and what is stored.
#![tactic(auto)]

mod laws;

pub use laws::{
    assignments_land, direct_values_are_there, operands_land, operators_land, operators_on_words,
    parts_land,
};

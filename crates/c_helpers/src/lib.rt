//! C with fewer operators: calls of helper functions stand where operators stood, as definitions.
#![tactic(auto)]

mod laws;

pub use laws::{
    calls_go_back, frames_are_small, kinds_are_handed_on, kinds_fit_their_room, names_are_distinct,
    names_are_strange, operators_have_functions, uses_are_short,
};

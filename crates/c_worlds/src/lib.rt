//! In two worlds whose calls of the same functions do the same, trees of C that name no others do the same.
#![tactic(auto)]

mod laws;

pub use laws::{
    actions_stay_valid, operators_are_silent, runs_go_alike, statements_go_alike, uses_stay_valid,
};

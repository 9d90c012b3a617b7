//! Expressions as code: values, places, conditions and calls.
#![tactic(auto)]

mod laws;

pub use laws::{
    call_free_expressions_land, calls_land, conditions_decide, expressions_land, quiet_keeps_state,
    steps_fit_the_cost,
};

//! Trees of C with fewer operators do what the operators do.
#![tactic(auto)]

mod laws;

pub use laws::{
    complements_are_evaluated, elements_are_evaluated, elements_are_places, numbers_are_assigned,
    operators_are_evaluated, pointers_are_assigned, wide_steps_are_taken,
};

//! Expressions and statements of C with fewer operators: the scopes in which they stand, their types and their string literals.
#![tactic(auto)]

mod laws;

pub use laws::{
    fewer_types_are_the_same, literals_are_kept, operands_can_be_written, rules_take_as_good,
    statements_keep_literals, statements_stay_typed, types_are_kept, types_are_written_back,
    types_can_be_written,
};

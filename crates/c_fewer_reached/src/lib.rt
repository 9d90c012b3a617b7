//! The functions of a text that are reached: with each those that it names.
#![tactic(auto)]

mod laws;

pub use laws::{
    defined_are_kept, expressions_update, kept_are_defined, reached_are_defined, reached_begins,
    reached_is_closed,
};

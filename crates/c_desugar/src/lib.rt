//! A typed text of C with calls of helper functions in place of operators: the helper functions in front, and what isn't
//! reached declared alone.
#![tactic(auto)]

mod functions;
mod items;
mod whole;

pub use whole::desugar;

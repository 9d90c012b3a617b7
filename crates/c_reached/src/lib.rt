//! The functions of a text that are reached from `main` and from first values at file scope.
#![tactic(auto)]

mod bodies;
mod reach;

pub use reach::reached_of;

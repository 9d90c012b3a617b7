//! The check of a tree of C: whether it is typed, its weight, and whether it is within the limits.
#![tactic(auto)]

mod functions;
mod items;
mod whole;
mod words;

pub use whole::check;

//! Helper functions do what their operators do, so calls and runs of a text with fewer operators are those of the text for which it stands.
#![tactic(auto)]

mod laws;

pub use laws::{calls_are_kept, helpers_do, runs_are_kept};
